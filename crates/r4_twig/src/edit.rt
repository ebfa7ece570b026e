//! Edits of an extent in its body (docs/layout.md, "Items").
//!
//! An extent is edited in a body of at most 4096 bytes, whose first bytes, up to a length that is passed, are units that
//! are accepted in memory on 2^63 blocks.

ghost use Rattle.std.specs.Prelude.{◌≡◌, ◌+◌, ◌*◌, ◌^◌, ◌<◌, ◌≤◌, ℕ, Bool, length, take, slice_set, slice_get, slice_index, None};
ghost use Rattle.std.specs.Option.{ForSome};
ghost use Rattle.r4_base.specs.Bytes.{put_all};
ghost use Rattle.r4_base.specs.Extents.{AreApart, IsLawfulUnit, WidthsFit, block_of_byte, body_fault, cut_at, joined, memory_fault, unit_fields, units_of};

use crate::units::{UNIT, continues, unit_in, unit_past};
use r4_base::{Unit, move_bytes, put64};

/// Cuts unit `i` of the first `used` bytes in two that have the same blocks: the first has `width` blocks, and the second
/// the rest, which for a hole is a hole. There is room for a unit behind the used bytes. Answers the new used length, 16
/// more than before (docs/layout.md, "Items").
pub fn split_at(body: &mut [u8], used: usize, i: u16, width: u64) -> usize
    requires short { length body.old ≤ 4096 }
    requires room { used + 16 ≤ length body.old }
    requires lawful { memory_fault (2 ^ 63) (take used body.old) ≡ None }
    requires index { i < length (units_of (take used body.old)) }
    requires some { 0 < width }
    requires inside { ForSome (slice_get (units_of (take used body.old)) i) (λ u. width < u.width) }
    ensures used { result ≡ used + 16 }
    ensures units { units_of (take result body.new) ≡ cut_at i width (units_of (take used body.old)) }
    ensures bytes { (b : ℕ) → block_of_byte (units_of (take result body.new)) b ≡ block_of_byte (units_of (take used body.old)) b }
    ensures lawful { memory_fault (2 ^ 63) (take result body.new) ≡ None }
    ensures rest { (k : ℕ) → result ≤ k → slice_index body.new k ≡ slice_index body.old k }
{
    let at = UNIT * usize::from(i);
    let unit = unit_in(body, usize::from(i));
    move_bytes(body, at + UNIT, used, at + 2 * UNIT);
    replace(body, i, &Unit { width, ..unit });
    replace(body, i + 1, &unit_past(&unit, width));
    used + UNIT
}

/// Makes unit `i` of a body this one; no other byte changes. Units that are accepted are accepted again, where this one is
/// (docs/layout.md, "Items").
pub fn replace(body: &mut [u8], i: u16, unit: &Unit)
    requires { 16 * i + 16 ≤ length body.old }
    ensures spelled { body.new ≡ put_all (unit_fields unit.now) (16 * i) body.old }
    ensures units { (used : ℕ) → 16 * i + 16 ≤ used → used ≤ length body.old → units_of (take used body.new) ≡ slice_set (units_of (take used body.old)) i unit.now }
    ensures all { units_of body.new ≡ slice_set (units_of body.old) i unit.now }
    ensures lawful { (in_memory : Bool) (blocks used : ℕ) → 16 * i + 16 ≤ used → used ≤ length body.old → IsLawfulUnit in_memory blocks unit.now
        → body_fault in_memory blocks (take used body.old) ≡ None → body_fault in_memory blocks (take used body.new) ≡ None }
{
    let at = UNIT * usize::from(i);
    put64(body, at, unit.start);
    put64(body, at + 8, unit.width);
}

/// Makes neighbouring units of the first `used` bytes one where the second goes on where the first one ends: two holes, or
/// two runs; blocks that are not placed yet stay apart. No block of a byte changes, and afterwards no two neighbours go on.
/// The width of each unit that is made fits 64 bits. Answers the new used length (docs/layout.md, "Items").
pub fn join(body: &mut [u8], used: usize) -> usize
    requires short { length body.old ≤ 4096 }
    requires within { used ≤ length body.old }
    requires lawful { memory_fault (2 ^ 63) (take used body.old) ≡ None }
    requires fits { WidthsFit (joined (units_of (take used body.old))) }
    ensures used { result ≤ used }
    ensures units { units_of (take result body.new) ≡ joined (units_of (take used body.old)) }
    ensures apart { AreApart (units_of (take result body.new)) }
    ensures bytes { (b : ℕ) → block_of_byte (units_of (take result body.new)) b ≡ block_of_byte (units_of (take used body.old)) b }
    ensures lawful { memory_fault (2 ^ 63) (take result body.new) ≡ None }
    ensures rest { (k : ℕ) → used ≤ k → slice_index body.new k ≡ slice_index body.old k }
{
    let mut last = unit_in(body, 0);
    let mut end = 0;
    for i in 1..used / UNIT {
        let unit = unit_in(body, i);
        if continues(&last, &unit) {
            last.width += unit.width;
        } else {
            replace(body, end, &last);
            end += 1;
            last = unit;
        }
    }
    replace(body, end, &last);
    UNIT * usize::from(end + 1)
}

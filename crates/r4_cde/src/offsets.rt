//! The offsets of entries (docs/layout.md, "Items").

ghost use Rattle.std.specs.Prelude.{◌≡◌, ℕ, ◌+◌, ◌^◌, ◌<◌, ◌≤◌, length};
ghost use Rattle.r4_base.specs.Dir.{entry_header, entry_offset};
ghost use Rattle.r4_cde.specs.Offsets.{ShiftsOffsets};

use crate::fields::{header_of, offset_in};
use r4_base::put16;

/// Adds `new - old` to the offsets of the entries from `first` up to `end`.
pub(crate) fn shift_offsets(body: &mut [u8], first: u16, end: u16, old: usize, new: usize)
    requires order { first ≤ end }
    requires room { entry_header end ≤ length body.old }
    requires enough { (k : ℕ) → first ≤ k → k < end → old ≤ entry_offset body.old k }
    requires small { (k : ℕ) → first ≤ k → k < end → entry_offset body.old k + new < 2 ^ 16 + old }
    ensures { ShiftsOffsets first end old new body.old body.new }
{
    for i in first..end {
        let offset = usize::from(offset_in(body, i)) - old + new;
        put16(body, header_of(i) + 24, offset as u16);
    }
}

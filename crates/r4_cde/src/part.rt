//! A part of a body's entries as a body of its own (docs/layout.md, "Items").

ghost use Rattle.std.specs.Prelude.{◌≡◌, ℕ, ◌+◌, ◌-◌, ◌<◌, ◌≤◌, length, take, drop, slice_index, None};
ghost use Rattle.r4_base.specs.declared.key.Key.{Key as EntryKey};
ghost use Rattle.r4_base.specs.Dir.{dir_fault, entries_of, entry_count};
ghost use Rattle.r4_base.specs.Entries.{IsLaid, first_key};
ghost use Rattle.r4_cde.specs.Edits.{IsDirBody, IsPart, part_room};

use crate::fields::{COUNT, edge_in, header_of};
use crate::offsets::shift_offsets;
use r4_base::{get16, put_bytes, put16};

/// Copies the entries before place `at` to `left`, and the others to `right`; neither is without entries. There is room for
/// each: a count of 2 bytes, and the entries' headers and bodies. Answers both used lengths (docs/layout.md, "Items").
pub fn split(body: &[u8], at: u16, left: &mut [u8], right: &mut [u8]) -> (usize, usize)
    requires short { length body.now ≤ 4096 }
    requires lawful { IsDirBody body.now }
    requires some { 0 < at }
    requires within { at < entry_count body.now }
    requires left_room { part_room body.now 0 at ≤ length left.old }
    requires right_room { part_room body.now at (entry_count body.now) ≤ length right.old }
    ensures left_used { result.0 ≡ part_room body.now 0 at }
    ensures right_used { result.1 ≡ part_room body.now at (entry_count body.now) }
    ensures left_entries { (item : EntryKey) → entries_of item (take result.0 left.new) ≡ take at (entries_of item body.now) }
    ensures right_entries { (item : EntryKey) → entries_of item (take result.1 right.new) ≡ drop at (entries_of item body.now) }
    ensures left_lawful { (item : EntryKey) → dir_fault item body.now ≡ None → dir_fault item (take result.0 left.new) ≡ None }
    ensures right_lawful { (item : EntryKey) → dir_fault item body.now ≡ None → dir_fault (first_key item (take result.1 right.new)) (take result.1 right.new) ≡ None }
    ensures left_rest { (k : ℕ) → result.0 ≤ k → slice_index left.new k ≡ slice_index left.old k }
    ensures right_rest { (k : ℕ) → result.1 ≤ k → slice_index right.new k ≡ slice_index right.old k }
{
    let count = get16(body, 0);
    (
        copy_part(body, 0, at, left),
        copy_part(body, at, count, right),
    )
}

/// Copies the entries from place `first` up to place `end` to `into`. Answers the used length.
fn copy_part(body: &[u8], first: u16, end: u16, into: &mut [u8]) -> usize
    requires short { length body.now ≤ 4096 }
    requires laid { IsLaid body.now }
    requires order { first ≤ end }
    requires within { end ≤ entry_count body.now }
    requires room { part_room body.now first end ≤ length into.old }
    ensures part { IsPart body.now first end result into.new }
    ensures rest { (k : ℕ) → result ≤ k → slice_index into.new k ≡ slice_index into.old k }
{
    let count = get16(body, 0);
    let from = edge_in(body, count, first);
    let to = edge_in(body, count, end);
    let bodies = header_of(end - first);
    put16(into, 0, end - first);
    put_bytes(into, COUNT, &body[header_of(first)..header_of(end)]);
    put_bytes(into, bodies, &body[from..to]);
    shift_offsets(into, 0, end - first, from, bodies);
    bodies + (to - from)
}

//! Edits of a body of entries (docs/layout.md, "Items").
//!
//! A body of at most 4096 bytes is edited in its first bytes, up to a length that is passed, which the reader of directory
//! items accepts; a length of 0 stands for no entry.

ghost use Rattle.std.specs.Prelude.{◌≡◌, ◌⊎◌, ℕ, ◌+◌, ◌<◌, ◌≤◌, ◌++◌, length, take, drop, slice_index, None};
ghost use Rattle.std.specs.List.{insert};
ghost use Rattle.std.specs.Option.{is_some, option_copied};
ghost use Rattle.r4_base.specs.Name.{is_long_key};
ghost use Rattle.r4_base.specs.declared.key.Key.{Key as EntryKey};
ghost use Rattle.r4_base.specs.Dir.{dir_fault, entries_of, entry_count, entry_edge};
ghost use Rattle.r4_base.specs.Entries.{IsLaid, IsLawfulEntry, first_key};
ghost use Rattle.r4_cde.specs.Edits.{GoesBetween, IsAcceptedOrEmpty, IsBegun, IsDirBody, given_entry, used_with};

use crate::fields::{COUNT, HEADER, edge_in};
use crate::put::{put_body, put_header, room_of};
use crate::splice::Splice;
use r4_base::{Key, Target, get16, put16};

/// Takes the entries from place `from` up to place `to` away from those of the first `used` bytes. Answers the new used
/// length, 0 where no entry is left (docs/layout.md, "Items").
pub fn cut(body: &mut [u8], used: usize, from: u16, to: u16) -> usize
    requires short { length body.old ≤ 4096 }
    requires inside { used ≤ length body.old }
    requires lawful { IsDirBody (take used body.old) }
    requires order { from ≤ to }
    requires within { to ≤ entry_count (take used body.old) }
    ensures used { result ≤ used }
    ensures entries { (item : EntryKey) → entries_of item (take result body.new) ≡ take from (entries_of item (take used body.old)) ++ drop to (entries_of item (take used body.old)) }
    ensures lawful { (item : EntryKey) → dir_fault item (take used body.old) ≡ None → (result ≡ 0) ⊎ (dir_fault (first_key item (take result body.new)) (take result body.new) ≡ None) }
    ensures rest { (k : ℕ) → used ≤ k → slice_index body.new k ≡ slice_index body.old k }
{
    let begin = edge_of(body, used, from);
    let end = edge_of(body, used, to);
    let place = Splice {
        at: from,
        gone: to - from,
        come: 0,
        from: begin,
        old: end - begin,
        new: 0,
    };
    let left = place.apply(body, used);
    // What is left of a count alone is no entry.
    if left == COUNT { 0 } else { left }
}

/// Puts an entry in at place `at` of those of the first `used` bytes, 0 where there is no entry: its key and target, and
/// for a name of more than 23 bytes its bytes, which are not copied elsewhere before. There is room for it behind the used
/// bytes: 50 bytes, for a long name its length and 1 more, and for the first entry 2 more. Answers the new used length
/// (docs/layout.md, "Items").
pub fn insert(
    body: &mut [u8],
    used: usize,
    at: u16,
    key: &Key,
    target: &Target,
    long: Option<&[u8]>,
) -> usize
    requires short { length body.old ≤ 4096 }
    requires room { used_with used (option_copied long) ≤ length body.old }
    requires lawful { IsAcceptedOrEmpty key.now (take used body.old) }
    requires within { at ≤ entry_count (take used body.old) }
    requires form { is_long_key key.now ≡ is_some (option_copied long) }
    requires entry { IsLawfulEntry (given_entry key.now target.now (option_copied long)) }
    requires between { GoesBetween (entries_of key.now (take used body.old)) at key.now }
    ensures used { result ≡ used_with used (option_copied long.entry) }
    ensures entries { entries_of key.now (take result body.new) ≡ insert (entries_of key.now (take used body.old)) at (given_entry key.now target.now (option_copied long.entry)) }
    ensures lawful { dir_fault (first_key key.now (take result body.new)) (take result body.new) ≡ None }
    ensures rest { (k : ℕ) → result ≤ k → slice_index body.new k ≡ slice_index body.old k }
{
    let used = begin(body, used);
    let from = edge_of(body, used, at);
    let place = Splice {
        at,
        gone: 0,
        come: 1,
        from,
        old: 0,
        new: room_of(long),
    };
    let used = place.apply(body, used);
    put_header(body, at, key, (from + HEADER) as u16);
    put_body(body, from + HEADER, target, long);
    used
}

/// Counts no entries where there is none yet. Answers the used length, which then is 2.
fn begin(body: &mut [u8], used: usize) -> usize
    requires room { 2 ≤ length body.old }
    requires inside { used ≤ length body.old }
    ensures { (dir : EntryKey) → IsAcceptedOrEmpty dir (take used body.old) → IsBegun dir used body.old result body.new }
{
    if used == 0 {
        put16(body, 0, 0);
        return COUNT;
    }
    used
}

/// Where the body of entry `i` of the first `used` bytes begins, or where they end where there is no such entry.
fn edge_of(body: &[u8], used: usize, i: u16) -> usize
    requires inside { used ≤ length body.now }
    requires laid { IsLaid (take used body.now) }
    requires within { i ≤ entry_count (take used body.now) }
    ensures { result ≡ entry_edge (take used body.now) i }
{
    let entries = &body[..used];
    edge_in(entries, get16(entries, 0), i)
}

//! A directory item, read where it stands (docs/layout.md, "Items").

ghost use Rattle.std.specs.Prelude.{◌≡◌, ◌≢◌, ◌+◌, ◌-◌, ◌*◌, ◌<◌, ◌≤◌, length, slice_get, None, Some, IfOk, IfErr, IfNone, IfSome, IsTrue, All};
ghost use Rattle.std.specs.Option.{is_none, option_map};
ghost use Rattle.r4_base.specs.Dir.{dir_fault, entry_count, entry_offset};

use crate::fault::fault_of;
use crate::fields::{key_in, place_of, target_in};
use crate::lent::NameRef;
use r4_base::{DirFault, Key, Target, get16};

/// A directory item that has no fault, whose entries are read from the body that it lends, when they are asked for. It has
/// at least one entry (docs/layout.md, "Items").
#[derive(Drop)]
pub struct DirView<'a> {
    item: Key,
    body: &'a [u8],
    count: u16,
    ghost good: { IsTrue (is_none (dir_fault item body.now)) },
    ghost counted: { count ≡ entry_count body.now },
}

/// An entry of a directory item: its key, the stat key of its object without the minor type, and its name.
#[derive(Drop)]
pub struct EntryRef<'a> {
    pub key: Key,
    pub target: Target,
    pub name: NameRef<'a>,
}

impl<'a> DirView<'a> {
    ghost use Rattle.r4_cde.specs.Shown.{IsLentAt, entry_shown, view_body, view_entries, view_key};

    /// Reads a body as the directory item of this key. The faults are looked for in this order: `Count`, where the body ends
    /// before its count, counts no entries, or has no room for their headers; then for each entry, by its place from 0 on,
    /// `Offset`, `Order` and `Name` (docs/layout.md, "Items"). It looks at each entry once.
    pub fn read(key: &Key, body: &'a [u8]) -> Result<DirView<'a>, DirFault>
        ensures ok { IfOk result (λ v. dir_fault key.now body.now ≡ None) }
        ensures lent { IfOk result (λ v. view_body v ≡ body.entry) }
        ensures key { IfOk result (λ v. view_key v ≡ key.now) }
        ensures err { IfErr result (λ e. dir_fault key.now body.now ≡ Some e) }
    {
        match fault_of(key, body) {
            Some(fault) => Err(fault),
            None => Ok(DirView {
                item: *key,
                body,
                count: get16(body, 0),
            }),
        }
    }

    /// The directory item of this key that a body spells which is known to have no fault, as one that was read before:
    /// nothing is looked at again.
    pub fn of_item(key: &Key, body: &'a [u8]) -> DirView<'a>
        requires { dir_fault key.now body.now ≡ None }
        ensures lent { view_body result ≡ body.entry }
        ensures key { view_key result ≡ key.now }
    {
        DirView {
            item: *key,
            body,
            count: get16(body, 0),
        }
    }

    /// How many entries the item has: at least 1.
    pub fn len(&self) -> u16
        ensures entries { result ≡ length (view_entries self.now) }
        ensures some { 1 ≤ result }
    {
        self.count
    }

    /// Entry `i`, counted from 0 and below the number of entries. A long name is lent from the body.
    pub fn entry(&self, i: u16) -> EntryRef<'a>
        requires { i < length (view_entries self.now) }
        ensures shown { slice_get (view_entries self.now) i ≡ Some (entry_shown result) }
        ensures lent { IsLentAt result.name (view_body self.now) (entry_offset (view_body self.now).now i + 24) }
    {
        let key = key_in(&self.item, self.body, i);
        let (from, to) = place_of(self.body, self.count, i);
        EntryRef {
            key,
            target: target_in(&self.body[from..to]),
            name: NameRef::read(&key, self.body, from, to),
        }
    }

    /// The place of the entry with this key, and `None` exactly where no entry has it. It looks by halves.
    pub fn find(&self, key: &Key) -> Option<u16>
        ensures some { IfSome result (λ i. option_map (λ e. e.key) (slice_get (view_entries self.now) i) ≡ Some key.now) }
        ensures none { IfNone result (All (λ e. e.key ≢ key.now) (view_entries self.now)) }
    {
        let mut low = 0;
        let mut high = self.count;
        while low < high {
            let middle = low + (high - low) / 2;
            if key_in(&self.item, self.body, middle).is_below(*key) {
                low = middle + 1;
            } else {
                high = middle;
            }
        }
        if low == self.count {
            return None;
        }
        key_in(&self.item, self.body, low)
            .is_same(*key)
            .then_some(low)
    }
}

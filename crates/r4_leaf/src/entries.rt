//! Entries that are put behind those of a leaf's item (docs/volume.md, "Leaves").

ghost use Rattle.std.specs.Prelude.{◌≡◌, ◌⊎◌, ℕ, ◌+◌, ◌-◌, ◌<◌, ◌≤◌, List, length, slice_get, slice_index, take, Some, None, ◌==◌, if◌then◌else◌};
ghost use Rattle.std.specs.Option.{option_copied};
ghost use Rattle.r4_base.specs.Entries.{IsLawfulEntry};
ghost use Rattle.r4_base.specs.Dir.{entry_count};
ghost use Rattle.r4_base.specs.Node.{Item, items_of};
ghost use Rattle.r4_cde.specs.Shown.{entry_shown, name_bytes};
ghost use Rattle.r4_node40.specs.Laid.{IsLaid, room_of};
ghost use Rattle.r4_node40.specs.Loan.{bytes_of, with_bytes};
ghost use Rattle.r4_leaf.specs.Filling.{HasEntry, Holds, Receives, TakesEntry, entry_need, long_of, need};

use crate::opening::{Place, open};
use r4_base::{ENTRIES, get16};
use r4_cde::{EntryRef, NameRef, insert};
use r4_node40::NodeMut;

/// The bytes of a name that stand in its entry's body: those of a name of more than 23 bytes.
fn long_name<'b>(name: &'b NameRef<'_>) -> Option<&'b [u8]>
    ensures long { option_copied result ≡ long_of (name_bytes name.now) }
    ensures bytes { (k : ℕ) → slice_index (name_bytes name.now) k < 256 }
{
    let bytes = name_of(name);
    (bytes.len() > 23).then_some(bytes)
}

/// The bytes of a name.
fn name_of<'b>(name: &'b NameRef<'_>) -> &'b [u8]
    ensures { result.now ≡ name_bytes name.now }
{
    match name {
        NameRef::Short(short) => short.as_bytes(),
        NameRef::Long(bytes) => *bytes,
    }
}

/// How many bytes the count of a body's entries takes that is yet to come.
fn count_need(used: u16) -> u16
    ensures need { result ≡ (if used == 0 then 2 else 0) }
    ensures small { result ≤ 2 }
{
    if used == 0 { 2 } else { 0 }
}

/// By how many bytes an item's body grows where an entry comes.
pub(crate) fn need_of(entry: &EntryRef<'_>, used: u16) -> u16
    requires { IsLawfulEntry (entry_shown entry.now) }
    ensures need { result ≡ entry_need used (entry_shown entry.now) }
    ensures small { result ≤ 308 }
{
    let count = count_need(used);
    match long_name(&entry.name) {
        Some(bytes) => count + 26 + 24 + bytes.len() as u16 + 1,
        None => count + 26 + 24,
    }
}

/// Puts an entry behind those of the item at the place, of which there are `at`.
pub(crate) fn put_entry_at(node: &mut NodeMut<'_>, place: Place, at: u16, entry: &EntryRef<'_>)
    requires place { (it : Item) × TakesEntry (bytes_of node.old) place.item place.used at it (entry_shown entry.now) × (need it (entry_need place.used (entry_shown entry.now)) ≤ room_of (bytes_of node.old)) }
    requires lawful { IsLawfulEntry (entry_shown entry.now) }
    ensures block { node.new ≡ with_bytes node.old (bytes_of node.new) }
    ensures holds { (it : Item) → TakesEntry (bytes_of node.old) place.item place.used at it (entry_shown entry.now) → need it (entry_need place.used (entry_shown entry.now)) ≤ room_of (bytes_of node.old)
        → (ws : List ℕ) × HasEntry it (entry_shown entry.now) ws × Holds (bytes_of node.old) place.item it ws (bytes_of node.new) }
{
    open(node, place, &entry.key, ENTRIES, need_of(entry, place.used));
    write_entry(node.body_mut(place.item), place.used, at, entry);
}

/// Writes an entry behind the others of a body, which has room for just it.
fn write_entry(body: &mut [u8], used: u16, at: u16, entry: &EntryRef<'_>)
    requires short { length body.old ≤ 4096 }
    requires long { length body.old ≡ used + entry_need used (entry_shown entry.now) }
    requires lawful { IsLawfulEntry (entry_shown entry.now) }
    requires item { (it : Item) × Receives it used at (entry_shown entry.now) × (take used body.old ≡ it.body) }
    ensures { (it : Item) → Receives it used at (entry_shown entry.now) → take used body.old ≡ it.body → HasEntry it (entry_shown entry.now) body.new }
{
    let long = long_name(&entry.name);
    let _ = insert(body, usize::from(used), at, &entry.key, &entry.target, long);
}

/// How many entries the item at the place has.
pub(crate) fn entries_at(node: &NodeMut<'_>, place: Place) -> u16
    requires laid { IsLaid (bytes_of node.now) }
    requires item { 1 ≤ place.used → (it : Item) × (slice_get (items_of (bytes_of node.now)) place.item ≡ Some it) × (2 ≤ length it.body) }
    ensures none { place.used ≡ 0 → result ≡ 0 }
    ensures some { 1 ≤ place.used → (it : Item) → slice_get (items_of (bytes_of node.now)) place.item ≡ Some it → result ≡ entry_count it.body }
{
    if place.used == 0 {
        return 0;
    }
    let leaf = node.view();
    get16(leaf.item(place.item).body, 0)
}

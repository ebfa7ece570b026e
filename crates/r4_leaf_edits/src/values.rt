//! Values as items of a leaf (docs/layout.md, "Items").

ghost use Rattle.std.specs.Prelude.{◌≡◌, ℕ, ◌<◌, ◌≤◌, true, IfOk, length, slice_index};
ghost use Rattle.std.specs.Option.{option_copied};
ghost use Rattle.r4_base.specs.Entries.{IsLawfulEntry};
ghost use Rattle.r4_base.specs.Key.{offset_of, rank};
ghost use Rattle.r4_base.specs.Stat.{kind_is_good};
ghost use Rattle.r4_base.specs.Value.{Entry, Stat, value_of};
ghost use Rattle.r4_reach.specs.r4_cde.Edits.{used_with};
ghost use Rattle.r4_reach.specs.r4_leaf.Filling.{long_of};
ghost use Rattle.r4_leaf_edits.specs.Made.{made_item};
ghost use Rattle.r4_leaf_edits.specs.Making.{IsUnit};
ghost use Rattle.r4_leaf_edits.specs.Suiting.{IsLawfulPut, is_byte};

use crate::leaf_edits::LeafItem;
use r4_base::{Attr, ENTRIES, Key, Memory, Name, STAT, Target, Value};
use r4_reach::{insert, write_stat};
use std::alloc::Global;

/// How many bytes stat data have.
const STAT_BYTES: usize = 44;

/// How many bytes a body has that counts its entries, and has one without its name.
const ENTRY_BYTES: usize = 2 + 26 + 24;

/// How many bytes a name has at most which its key spells.
const SHORT_MAX: usize = 23;

/// The item of a value, which has one unit.
pub(crate) fn item_of_value<'a>(
    alloc: Global,
    key: Key,
    value: &Value,
) -> Result<LeafItem<'a>, Memory>
    requires lawful { IsLawfulPut (rank key, value_of value.now) }
    requires short { is_byte (value_of value.now) ≡ true → offset_of key < 16384 }
    ensures { IfOk result (λ it. IsUnit key (value_of value.now) (made_item it)) }
{
    match value {
        Value::Attr(attr) => item_of_stat(alloc, key, attr),
        Value::Entry(name, target) => item_of_entry(alloc, key, name, target),
        Value::Byte(byte) => Ok(LeafItem::Filled(key, 1, *byte)),
    }
}

// The item of an object's attributes.
fn item_of_stat<'a>(alloc: Global, key: Key, attr: &Attr) -> Result<LeafItem<'a>, Memory>
    requires { kind_is_good attr.now.mode ≡ true }
    ensures { IfOk result (λ it. IsUnit key (Stat attr.now) (made_item it)) }
{
    let mut body = vec![in alloc; 0u8; STAT_BYTES]?;
    write_stat(&mut body, attr);
    Ok(LeafItem::Spelled(key, STAT, body))
}

// The item of an entry.
fn item_of_entry<'a>(
    alloc: Global,
    key: Key,
    name: &Name,
    target: &Target,
) -> Result<LeafItem<'a>, Memory>
    requires { IsLawfulEntry (record { key = key; target = target.now; name = name.now }) }
    ensures { IfOk result (λ it. IsUnit key (Entry name.now target.now) (made_item it)) }
{
    let name = name.as_slice();
    let long = long_name(name);
    let mut body = vec![in alloc; 0u8; room_of(name)]?;
    insert(&mut body, 0, 0, &key, target, long);
    Ok(LeafItem::Spelled(key, ENTRIES, body))
}

// The bytes of a name that stand in its entry's body: those of a name that its key does not spell.
fn long_name(name: &[u8]) -> Option<&[u8]>
    ensures long { option_copied result ≡ long_of name.now }
    ensures bytes { (k : ℕ) → slice_index name.now k < 256 }
{
    (name.len() > SHORT_MAX).then_some(name)
}

// How many bytes the body of the entry of a name has.
fn room_of(name: &[u8]) -> usize
    requires { length name.now ≤ 255 }
    ensures room { result ≡ used_with 0 (long_of name.now) }
    ensures small { result ≤ 308 }
{
    if name.len() > SHORT_MAX {
        ENTRY_BYTES + name.len() + 1
    } else {
        ENTRY_BYTES
    }
}

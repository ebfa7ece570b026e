//! The units of a leaf's items, as parts of what was seen.

ghost use Rattle.std.specs.Prelude.{◌≡◌, ◌+◌, ◌-◌, ◌≤◌, length, min, OnOk, IfOk};
ghost use Rattle.r4_base.specs.Cell.{item_units};
ghost use Rattle.r4_base.specs.Key.{offset_of, rank};
ghost use Rattle.r4_units.specs.r4_cell.Seen.{node_of};
ghost use Rattle.r4_cde.specs.Shown.{entry_shown};
ghost use Rattle.r4_content.specs.Edited.{is_between};
ghost use Rattle.r4_content.specs.Held.{part_pairs};
ghost use Rattle.r4_content.specs.Objects.{byte_pairs};
ghost use Rattle.r4_content.specs.Seen.{Rises, pairs_in};
ghost use Rattle.r4_leaf.specs.Items.{IsSoundItem};
ghost use Rattle.r4_node40.specs.View.{item_shown};
ghost use Rattle.r4_sight.specs.Parts.{Adds, AreFull, all_pairs, entry_pair};

use r4_base::{Bytes, ENTRIES, Key, Memory, Name, STAT, Value};
use r4_cde::{DirView, EntryRef};
use r4_content::{ByteRun, Interval, SeenPart};
use r4_meta::read_stat;
use r4_node40::ItemView;
use r4_units::{Cell, name_bytes};
use std::alloc::Global;

/// What a leaf has at the keys of an interval, in their order: stat data, entries, and the bytes of tails in runs
/// (docs/volume.md, "Sight"). Each part has a key at least. The only error is want of memory.
pub fn parts_of(alloc: Global, leaf: &Cell, within: Interval) -> Result<Vec<SeenPart>, Memory>
    requires { leaf.now.level ≡ 1 }
    ensures pairs { IfOk result (λ parts. all_pairs parts.items
        ≡ pairs_in (node_of leaf.now).units (rank within.from) (rank within.to)) }
    ensures rises { IfOk result (λ parts. Rises (all_pairs parts.items)) }
    ensures full { IfOk result (λ parts. AreFull parts.items) }
{
    let mut parts = Vec::new(alloc);
    let node = leaf.node();
    for i in 0..node.len() {
        add_item(alloc, &mut parts, &node.item(i), within)?;
    }
    Ok(parts)
}

// Puts what an item has there behind the other parts.
fn add_item(
    alloc: Global,
    parts: &mut Vec<SeenPart>,
    item: &ItemView<'_>,
    within: Interval,
) -> Result<(), Memory>
    requires { IsSoundItem (item_shown item.now) }
    ensures { OnOk result (Adds parts.old.items
        (pairs_in (item_units (item_shown item.now)) (rank within.from) (rank within.to)) parts.new.items) }
{
    match item.plugin {
        STAT => add_stat(parts, item, within),
        ENTRIES => add_entries(alloc, parts, item, within),
        _ => add_bytes(alloc, parts, item, within),
    }
}

// The attributes of stat data.
fn add_stat(parts: &mut Vec<SeenPart>, item: &ItemView<'_>, within: Interval) -> Result<(), Memory>
    requires sound { IsSoundItem (item_shown item.now) }
    requires plugin { item.now.plugin ≡ 0 }
    ensures { OnOk result (Adds parts.old.items
        (pairs_in (item_units (item_shown item.now)) (rank within.from) (rank within.to)) parts.new.items) }
{
    if !is_within(item.key, within) {
        return Ok(());
    }
    match read_stat(item.body) {
        Ok(attr) => {
            parts.push(SeenPart::One {
                key: item.key,
                value: Value::Attr(attr),
            })?;
            Ok(())
        }
        Err(_) => unreachable!(),
    }
}

// The entries of a directory.
fn add_entries(
    alloc: Global,
    parts: &mut Vec<SeenPart>,
    item: &ItemView<'_>,
    within: Interval,
) -> Result<(), Memory>
    requires sound { IsSoundItem (item_shown item.now) }
    requires plugin { item.now.plugin ≡ 2 }
    ensures { OnOk result (Adds parts.old.items
        (pairs_in (item_units (item_shown item.now)) (rank within.from) (rank within.to)) parts.new.items) }
{
    let entries = DirView::of_item(&item.key, item.body);
    for i in 0..entries.len() {
        add_entry(alloc, parts, &entries.entry(i), within)?;
    }
    Ok(())
}

// One entry.
fn add_entry(
    alloc: Global,
    parts: &mut Vec<SeenPart>,
    entry: &EntryRef<'_>,
    within: Interval,
) -> Result<(), Memory>
    ensures { OnOk result (Adds parts.old.items
        (pairs_in (entry_pair (entry_shown entry.now)) (rank within.from) (rank within.to)) parts.new.items) }
{
    if !is_within(entry.key, within) {
        return Ok(());
    }
    let name = Name::from_vec(alloc, Vec::from_slice(alloc, name_bytes(&entry.name))?)?;
    parts.push(SeenPart::One {
        key: entry.key,
        value: Value::Entry(name, entry.target),
    })?;
    Ok(())
}

// The bytes of a tail.
fn add_bytes(
    alloc: Global,
    parts: &mut Vec<SeenPart>,
    item: &ItemView<'_>,
    within: Interval,
) -> Result<(), Memory>
    requires sound { IsSoundItem (item_shown item.now) }
    requires plugin { item.now.plugin ≡ 6 }
    ensures { OnOk result (Adds parts.old.items
        (pairs_in (item_units (item_shown item.now)) (rank within.from) (rank within.to)) parts.new.items) }
{
    let from = bytes_up_to(item, within.from);
    let to = bytes_up_to(item, within.to);
    if from >= to {
        return Ok(());
    }
    parts.push(run_of(alloc, behind(item.key, from as u64), &item.body[from..to])?)?;
    Ok(())
}

/// Bytes, the first at a key, as a part of what was seen.
pub(crate) fn run_of(alloc: Global, from: Key, bytes: &[u8]) -> Result<SeenPart, Memory>
    ensures { IfOk result (λ part. part_pairs part ≡ byte_pairs (rank from) bytes.now) }
{
    let bytes = Bytes::from_vec(alloc, Vec::from_slice(alloc, bytes)?)?;
    Ok(SeenPart::Run(ByteRun { from, bytes }))
}

// Whether a key is one of an interval.
fn is_within(key: Key, within: Interval) -> bool
    ensures { result ≡ is_between (rank within.from) (rank within.to) (rank key) }
{
    !key.is_below(within.from) && key.is_below(within.to)
}

// How many bytes of a tail have keys below this one.
fn bytes_up_to(item: &ItemView<'_>, key: Key) -> usize
    requires short { offset_of item.now.key + length item.now.body.now ≤ 16384 }
    ensures { result ≡ min (length item.now.body.now) (rank key - rank item.now.key) }
{
    if !item.key.is_below(key) {
        return 0;
    }
    if !key.is_below(behind(item.key, item.body.len() as u64)) {
        return item.body.len();
    }
    (key.el[3] - item.key.el[3]) as usize
}

// The key so many bytes behind one, of the same body.
#[tactic(auto, unfolding(r4_base::specs::Key::rank))]
fn behind(key: Key, bytes: u64) -> Key
    requires { offset_of key + bytes ≤ 16384 }
    ensures { rank result ≡ rank key + bytes }
{
    key.behind(bytes)
}

//! What a node holds, item by item.

ghost use Rattle.std.specs.Prelude.{◌≡◌, ◌≤◌, ◌^◌, ◌++◌, map, length, true, None, OnOk};
ghost use Rattle.r4_base.specs.Cell.{item_body_fault};
ghost use Rattle.r4_base.specs.Extents.{blocks_in};
ghost use Rattle.r4_base.specs.Stat.{attr_of, stat_of};
ghost use Rattle.r4_base.specs.Cell.{fault_in};
ghost use Rattle.r4_cde.specs.Shown.{view_entries};
ghost use Rattle.r4_cell.specs.Seen.{node_of};
ghost use Rattle.r4_node40.specs.View.{item_shown};
ghost use Rattle.r4_twig.specs.View.{view_units};
ghost use Rattle.r4_check_objects.specs.Held.{counted, facts_of, held_by, held_entry, held_in, thing_by};

use r4_base::{ENTRIES, EXTENT, Memory, POINTER, STAT};
use r4_cde::DirView;
use r4_cell::Cell;
use r4_check_objects::{Facts, Held, Thing};
use r4_meta::read_stat;
use r4_node40::ItemView;
use r4_twig::ExtentView;

/// Adds what a node in this block holds, in order: stat data, entries, and the parts of bodies that tails and extents are
/// (docs/check.md, "Objects").
pub fn gather_node(found: &mut Vec<Held>, block: u64, cell: &Cell) -> Result<(), Memory>
    requires { 1 ≤ cell.now.level }
    ensures { OnOk result (found.new.items
        ≡ found.old.items ++ held_in block (node_of cell.now)) }
{
    let node = cell.node();
    for i in 0..node.len() {
        gather_item(found, block, &node.item(i))?;
    }
    Ok(())
}

// Adds what an item holds.
fn gather_item(found: &mut Vec<Held>, block: u64, item: &ItemView<'_>) -> Result<(), Memory>
    requires short { length item.now.body.now ≤ 4096 }
    requires sound { item_body_fault true (2 ^ 64) (item_shown item.now) ≡ None }
    ensures { OnOk result (found.new.items
        ≡ found.old.items ++ held_by block (item_shown item.now)) }
{
    if item.plugin == ENTRIES {
        gather_entries(found, block, &DirView::of_item(&item.key, item.body))?;
        return Ok(());
    }
    if let Some(thing) = thing_of(item) {
        let key = item.key;
        found.push(Held { block, key, thing })?;
    }
    Ok(())
}

// What an item holds that has no entries.
fn thing_of(item: &ItemView<'_>) -> Option<Thing>
    requires short { length item.now.body.now ≤ 4096 }
    requires sound { item_body_fault true (2 ^ 64) (item_shown item.now) ≡ None }
    ensures { result ≡ thing_by (item_shown item.now) }
{
    if item.plugin == STAT {
        return Some(Thing::Stat(facts_in(item.body)));
    }
    if item.plugin == POINTER {
        return None;
    }
    if item.plugin == EXTENT {
        return Some(Thing::Extent(blocks_of(&ExtentView::of_item(item.body))));
    }
    Some(Thing::Tail(item.body.len() as u64))
}

// The facts that stat data say.
fn facts_in(body: &[u8]) -> Facts
    requires { fault_in (stat_of body.now) ≡ None }
    ensures { result ≡ facts_of (attr_of body.now) }
{
    match read_stat(body) {
        Ok(attr) => Facts::of(attr),
        Err(_) => unreachable!(),
    }
}

// How many blocks an extent has, with those of its holes: at most 2^64 - 1 are counted.
fn blocks_of(extent: &ExtentView<'_>) -> u64
    ensures { result ≡ counted (blocks_in (view_units extent.now)) }
{
    let mut blocks: u64 = 0;
    for i in 0..extent.len() {
        blocks = blocks.saturating_add(extent.unit(i).width);
    }
    blocks
}

// Adds entries.
fn gather_entries(found: &mut Vec<Held>, block: u64, entries: &DirView<'_>) -> Result<(), Memory>
    ensures { OnOk result (found.new.items
        ≡ found.old.items ++ map (held_entry block) (view_entries entries.now)) }
{
    for i in 0..entries.len() {
        let entry = entries.entry(i);
        let key = entry.key;
        let thing = Thing::Entry(entry.target);
        found.push(Held { block, key, thing })?;
    }
    Ok(())
}

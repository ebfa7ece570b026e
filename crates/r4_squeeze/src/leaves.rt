//! A slum of leaves, filled from the left (docs/volume.md, "Squeezing").

ghost use Rattle.std.specs.Prelude.{◌≡◌, ◌<◌, ◌++◌, ℕ, map, Contains, IfOk, OnOk};
ghost use Rattle.std.specs.Arc.{arc_value};
ghost use Rattle.r4_cell.specs.Seen.{CellSeen};
ghost use Rattle.r4_leaf.specs.Remade.{item_of};
ghost use Rattle.r4_node40.specs.View.{view_items};
ghost use Rattle.r4_path.specs.Sharing.{IsSound, items_of_cells};
ghost use Rattle.r4_path.specs.Steps.{Follow};
ghost use Rattle.r4_squeeze.specs.Packing.{PacksLeaves, filled_leaf};

use crate::filled::Filled;
use r4_base::{Memory, get32};
use r4_cell::Cell;
use r4_leaf::{Given, Leaf, remake};
use r4_node40::NodeView;
use std::alloc::Global;
use std::sync::Arc;

/// Leaves with the units of all leaves of a slum, which is not empty: each is full before the next one is begun. All have
/// the first one's mkfs_id.
pub fn pack_leaves(alloc: Global, slum: &[Arc<Cell>]) -> Result<Vec<Filled>, Memory>
    requires slum { (from : ℕ) × ((to : ℕ) × ((from < to)
        × Follow 1 from to (map (λ c. arc_value c) slum.now))) }
    ensures packs { IfOk result (λ v. (from to : ℕ) → from < to
        → Follow 1 from to (map (λ c. arc_value c) slum.now)
        → PacksLeaves from to (map (λ c. arc_value c) slum.now) v.items) }
    ensures sound { IfOk result (λ v. (x : CellSeen)
        → Contains (map (λ c. arc_value c) slum.now) x → IsSound x) }
{
    let items = items_behind(alloc, &slum[1..])?;
    let first = &slum[0];
    let mkfs_id = get32(first.block().bytes(), 12);
    let leaves = remake(
        alloc,
        &first.node(),
        first.lo(),
        mkfs_id,
        &[],
        items.as_slice(),
    )?;
    filled_of(alloc, leaves)
}

// The items of all leaves, one leaf's after the other's.
fn items_behind<'a>(alloc: Global, leaves: &'a [Arc<Cell>]) -> Result<Vec<Given<'a>>, Memory>
    requires { (from : ℕ) × ((to : ℕ) × Follow 1 from to (map (λ c. arc_value c) leaves.now)) }
    ensures items { IfOk result (λ v. map item_of v.items
        ≡ items_of_cells (map (λ c. arc_value c) leaves.now)) }
    ensures sound { IfOk result (λ v. (x : CellSeen)
        → Contains (map (λ c. arc_value c) leaves.now) x → IsSound x) }
{
    let mut items = Vec::new(alloc);
    for leaf in leaves {
        add_given(&mut items, &leaf.node())?;
    }
    Ok(items)
}

// Puts the items of a leaf behind the others.
fn add_given<'a>(items: &mut Vec<Given<'a>>, leaf: &NodeView<'a>) -> Result<(), Memory>
    ensures { OnOk result (map item_of items.new.items
        ≡ map item_of items.old.items ++ view_items leaf.now) }
{
    for i in 0..leaf.len() {
        let item = leaf.item(i);
        items.push(Given::Item {
            key: item.key,
            plugin: item.plugin,
            body: item.body,
        })?;
    }
    Ok(())
}

// The leaves as nodes that were filled.
fn filled_of(alloc: Global, leaves: Vec<Leaf>) -> Result<Vec<Filled>, Memory>
    ensures { IfOk result (λ v. v.items ≡ map filled_leaf leaves.items) }
{
    let mut filled = Vec::with_capacity(alloc, leaves.len())?;
    for Leaf { lo, block } in leaves {
        filled.push(Filled { lo, block })?;
    }
    Ok(filled)
}

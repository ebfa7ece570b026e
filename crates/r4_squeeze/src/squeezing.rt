//! A slum that is packed to the left, with the cell above it (docs/volume.md, "Squeezing").

ghost use Rattle.std.specs.Prelude.{◌≡◌, ◌≤◌, ℕ, false, map, Contains, IfOk, None};
ghost use Rattle.std.specs.Arc.{arc_value};
ghost use Rattle.r4_base.specs.Tree.{Root, Store};
ghost use Rattle.r4_base.specs.Value.{Value};
ghost use Rattle.r4_cell.specs.Patch.{IsChange};
ghost use Rattle.r4_patch.specs.Effect.{HasEffect};
ghost use Rattle.r4_patch.specs.Joining.{patch_of_change};
ghost use Rattle.r4_patch.specs.Part.{MeetsPart};
ghost use Rattle.r4_rows.specs.Slum.{IsSlum};
ghost use Rattle.r4_squeeze.specs.Over.{AreBeside, IsSlumOf};
ghost use Rattle.r4_squeeze.specs.Squeezing.{AreFilled, ArePacked, AreSoundButTwigs, Squeezes};
ghost use Rattle.r4_squeeze.specs.Packing.{PacksNodes, first_mkfs_id};
ghost use Rattle.r4_cell.specs.Seen.{CellSeen};
ghost use Rattle.r4_path.specs.Sharing.{IsSound, items_of_cells};
ghost use Rattle.r4_path.specs.Steps.{Follow};
ghost use Rattle.r4_squeeze.specs.Items.{items_meant};

use crate::filled::Filled;
use crate::items::{NodeItem, add_items};
use crate::leaves::pack_leaves;
use crate::nodes::pack_nodes;
use crate::numbering::{numbered, numbers_of};
use crate::parent::rewritten;
use crate::twigs::fill_twigs;
use r4_base::{LEAF, Memory, TWIG, get32};
use r4_cell::{Cell, Cells, Change};
use std::alloc::Global;
use std::sync::Arc;

/// Packs a slum to the left: cells of one level, each the right neighbour of the one before, of which the last cell
/// above has the pointers. As many cells come in its place as are needed, each full before the next one is begun, with the
/// leftmost of the slum's numbers, and the cell above gets pointers to these. No unit changes, and none changes its kind of
/// cell; units of an extent that continue each other stand in one item, and tails of one file that meet do. Each cell is
/// read once and written once. The only error is want of memory (docs/volume.md, "Squeezing").
pub fn squeeze(alloc: Global, slum: &[Arc<Cell>], parent: &Arc<Cell>) -> Result<Change, Memory>
    requires slum { IsSlumOf (map (λ c. arc_value c) slum.now) (arc_value parent.now) }
    ensures change { IfOk result (λ c. (t : Store Value) (r : Root)
        → IsSlum t r (map (λ x. arc_value x) slum.now) (arc_value parent.now)
        → IsChange c.old c.new c.root) }
    ensures meets { IfOk result (λ c. (t : Store Value) (r : Root)
        → IsSlum t r (map (λ x. arc_value x) slum.now) (arc_value parent.now)
        → MeetsPart (patch_of_change c) t r) }
    ensures effect { IfOk result (λ c. (t : Store Value) (r : Root)
        → IsSlum t r (map (λ x. arc_value x) slum.now) (arc_value parent.now)
        → HasEffect (patch_of_change c) (λ k. false) (λ k. None)) }
    ensures squeezes { IfOk result (λ c. Squeezes (map (λ x. arc_value x) slum.now)
        (arc_value parent.now) c) }
{
    let cells = packed(alloc, slum)?;
    let over = rewritten(alloc, parent, slum, cells.as_slice())?;
    let mut old = Vec::with_capacity(alloc, slum.len() + 1)?;
    for cell in slum {
        old.push(Arc::try_clone(cell)?)?;
    }
    old.push(Arc::try_clone(parent)?)?;
    let mut new = cells;
    new.push(over)?;
    Ok(Change {
        old: Cells::from_vec(old),
        new: Cells::from_vec(new),
        root: None,
    })
}

// The cells that come in the place of a slum.
fn packed(alloc: Global, slum: &[Arc<Cell>]) -> Result<Vec<Arc<Cell>>, Memory>
    requires { (level : ℕ) × ((from : ℕ) × ((to : ℕ)
        × AreBeside level from to (map (λ c. arc_value c) slum.now))) }
    ensures packed { IfOk result (λ v. ArePacked (map (λ c. arc_value c) slum.now)
        (map (λ c. arc_value c) v.items)) }
    ensures sound { IfOk result (λ v. AreSoundButTwigs (map (λ c. arc_value c) slum.now)) }
{
    let filled = fill(alloc, slum)?;
    let first = &slum[0];
    let hi = slum[slum.len() - 1].hi();
    let ids = numbers_of(alloc, slum)?;
    numbered(alloc, first.level(), ids.as_slice(), filled, hi)
}

// Nodes with what a slum has, filled from the left.
fn fill(alloc: Global, slum: &[Arc<Cell>]) -> Result<Vec<Filled>, Memory>
    requires { (level : ℕ) × ((from : ℕ) × ((to : ℕ)
        × AreBeside level from to (map (λ c. arc_value c) slum.now))) }
    ensures filled { IfOk result (λ v. (level from to : ℕ)
        → AreBeside level from to (map (λ c. arc_value c) slum.now)
        → AreFilled level from to (map (λ c. arc_value c) slum.now) v.items) }
    ensures sound { IfOk result (λ v. AreSoundButTwigs (map (λ c. arc_value c) slum.now)) }
{
    match slum[0].level() {
        LEAF => pack_leaves(alloc, slum),
        TWIG => fill_twigs(alloc, slum),
        _ => fill_nodes(alloc, slum),
    }
}

// Nodes with the pointers of all nodes of a slum.
fn fill_nodes(alloc: Global, slum: &[Arc<Cell>]) -> Result<Vec<Filled>, Memory>
    requires { (level : ℕ) × ((from : ℕ) × ((to : ℕ)
        × (AreBeside level from to (map (λ c. arc_value c) slum.now) × (3 ≤ level)))) }
    ensures packs { IfOk result (λ v. (level from to : ℕ)
        → AreBeside level from to (map (λ c. arc_value c) slum.now) → 3 ≤ level
        → PacksNodes level (first_mkfs_id (map (λ c. arc_value c) slum.now))
        (items_of_cells (map (λ c. arc_value c) slum.now)) v.items) }
    ensures sound { IfOk result (λ v. (x : CellSeen)
        → Contains (map (λ c. arc_value c) slum.now) x → IsSound x) }
{
    let items = items_of_all(alloc, slum)?;
    let first = &slum[0];
    let mkfs_id = get32(first.block().bytes(), 12);
    let mut filled = Vec::new(alloc);
    pack_nodes(alloc, first.level(), mkfs_id, items.as_slice(), &mut filled)?;
    Ok(filled)
}

/// The items of all nodes, one node's after the other's. The nodes stand beside each other, and may stand.
pub fn items_of_all<'a>(alloc: Global, slum: &'a [Arc<Cell>]) -> Result<Vec<NodeItem<'a>>, Memory>
    requires { (level : ℕ) × ((from : ℕ) × ((to : ℕ)
        × ((1 ≤ level) × Follow level from to (map (λ c. arc_value c) slum.now)))) }
    ensures items { IfOk result (λ v. items_meant v.items
        ≡ items_of_cells (map (λ c. arc_value c) slum.now)) }
    ensures sound { IfOk result (λ v. (x : CellSeen)
        → Contains (map (λ c. arc_value c) slum.now) x → IsSound x) }
{
    let mut items = Vec::new(alloc);
    for cell in slum {
        let node = cell.node();
        add_items(&mut items, &node, 0, node.len())?;
    }
    Ok(items)
}

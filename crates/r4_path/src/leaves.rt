//! The cells that come in the place of a leaf (docs/volume.md, "Edits").

ghost use Rattle.std.specs.Prelude.{◌≡◌, ◌+◌, ◌≤◌, ◌∷◌, ◌++◌, List, length, map, IfOk, OnOk};
ghost use Rattle.std.specs.Arc.{arc_value};
ghost use Rattle.std.specs.Vec.Iter.{into_iter_items};
ghost use Rattle.r4_base.specs.Key.{rank};
ghost use Rattle.r4_base.specs.Node.{mkfs_id_of};
ghost use Rattle.r4_base.specs.Tree.{IsNode};
ghost use Rattle.r4_patch.specs.r4_cell.Seen.{node_of};
ghost use Rattle.r4_leaf.specs.Leaves.{HaveMkfsId, Packs};
ghost use Rattle.r4_leaf.specs.Units.{LeafUnit};
ghost use Rattle.r4_path.specs.LeafSteps.{ArePacked, IsLeafStep, leaf_cells};
ghost use Rattle.r4_path.specs.Levels.{step_of};
ghost use Rattle.r4_path.specs.Steps.{OnlyTakes};

use crate::level::Level;
use crate::numbers::take_number;
use r4_base::{Key, LEAF, Memory, NodeId};
use r4_leaf::Leaf;
use r4_patch::{Cell, Cells, Fresh, new_cell};
use std::alloc::Global;
use std::sync::Arc;
use std::vec::IntoIter;

/// The level of a leaf, in whose place these leaves come. They share out its range; the first has its name, and each other
/// one takes a fresh number.
pub fn leaf_level(
    alloc: Global,
    leaf: &Arc<Cell>,
    leaves: Vec<Leaf>,
    fresh: &mut Fresh,
) -> Result<Level, Memory>
    requires level { (arc_value leaf.now).level ≡ 1 }
    requires node { IsNode (node_of (arc_value leaf.now)) }
    requires packed { ArePacked (rank (arc_value leaf.now).lo) (rank (arc_value leaf.now).hi) leaves.items }
    requires numbers { fresh.old.next + length leaves.items ≤ fresh.old.end }
    ensures step { IfOk result (λ l. (us : List LeafUnit)
        → Packs (rank (arc_value leaf.now).lo) (rank (arc_value leaf.now).hi) us leaves.items
        → HaveMkfsId (mkfs_id_of (arc_value leaf.now).block) leaves.items
        → IsLeafStep (arc_value leaf.now) us leaves.items fresh.old fresh.new (step_of l)) }
    ensures numbers { OnlyTakes fresh.old fresh.new }
{
    let mut cells = Vec::with_capacity(alloc, leaves.len())?;
    let mut rest = leaves.into_iter();
    if let Some(first) = rest.next() {
        add(alloc, leaf.id(), first, rest, leaf.hi(), fresh, &mut cells)?;
    }
    Ok(Level {
        old: Arc::try_clone(leaf)?,
        new: Cells::from_vec(cells),
    })
}

/// Puts the cells of a leaf and of the further ones behind the others. The leaf has this name, and each other one takes a
/// fresh number; each goes up to where the next one begins, and the last up to `hi`.
fn add(
    alloc: Global,
    id: NodeId,
    leaf: Leaf,
    mut more: IntoIter<Leaf>,
    hi: Key,
    fresh: &mut Fresh,
    cells: &mut Vec<Arc<Cell>>,
) -> Result<(), Memory>
    requires packed { ArePacked (rank leaf.lo) (rank hi) (leaf ∷ into_iter_items more) }
    requires numbers { fresh.old.next + length (into_iter_items more) ≤ fresh.old.end }
    ensures cells { OnOk result (map (λ c. arc_value c) cells.new.items
        ≡ map (λ c. arc_value c) cells.old.items ++ leaf_cells id.0 fresh.old.next hi (leaf ∷ into_iter_items more)) }
    ensures fresh { OnOk result (fresh.new ≡ record fresh.old { next = fresh.old.next + length (into_iter_items more) }) }
    ensures numbers { OnlyTakes fresh.old fresh.new }
{
    let Some(next) = more.next() else {
        cells.push(new_cell(alloc, id, LEAF, leaf.lo, hi, leaf.block)?)?;
        return Ok(());
    };
    cells.push(new_cell(alloc, id, LEAF, leaf.lo, next.lo, leaf.block)?)?;
    let id = take_number(fresh);
    add(alloc, id, next, more, hi, fresh, cells)
}

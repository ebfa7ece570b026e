//! All edits that lie in leaves, one leaf after another (docs/volume.md, "Bodies in extents").

ghost use Rattle.std.specs.Prelude.{◌≡◌, ◌^◌, ◌<◌, ◌≤◌, OnOk, map, true};
ghost use Rattle.std.specs.Arc.{arc_value};
ghost use Rattle.r4_base.specs.Key.{rank};
ghost use Rattle.r4_base.specs.Tree.{Store};
ghost use Rattle.r4_base.specs.Value.{Value};
ghost use Rattle.r4_build.specs.Making.{AreMadeIn};
ghost use Rattle.r4_build.specs.r4_leaf_edits.Suiting.{SuitLeaves};
ghost use Rattle.r4_build.specs.r4_measure.r4_cell.Patch.{root_of_pair};
ghost use Rattle.r4_build.specs.r4_path.Steps.{OnlyTakes};
ghost use Rattle.r4_build.specs.r4_reach.Needs.{is_met};
ghost use Rattle.r4_build.specs.r4_work.Working.{IsWorking};
ghost use Rattle.r4_content.specs.Edited.{changed};
ghost use Rattle.r4_content.specs.Held.{edits_of};
ghost use Rattle.r4_leaf_steps.specs.Editing.{IsEditedAt};

use crate::sufficing::may_edit;
use r4_base::Memory;
use r4_build::WorkingSet;
use r4_cell::{Cell, Fresh, Root};
use r4_content::Edits;
use r4_leaf_demands::{edits_of_leaf, touches_leaf};
use std::alloc::Global;
use std::sync::Arc;

/// Makes the edits that lie in leaves among these cells, one leaf after another, in a set of cells
/// of a tree that had this root before the set's change. Each leaf is looked at when its turn comes:
/// it is edited where its units fit into it then, or where the cells that stand above it suffice
/// for what comes beside it. The only error is want of memory: also where they do not suffice, or
/// numbers lack. Then the set and the numbers may have changed (docs/volume.md, "Bodies in
/// extents").
pub fn edit_each(
    alloc: Global,
    set: &mut WorkingSet,
    root: &Root,
    cells: &[Arc<Cell>],
    edits: &Edits,
    fresh: &mut Fresh,
) -> Result<(), Memory>
    requires working { (t : Store Value)
        × IsWorking t (root_of_pair root.now) fresh.old set.old }
    requires suits { SuitLeaves 16384 (edits_of edits.now) }
    requires numbers { (2 ^ 63 ≤ fresh.old.next) × (fresh.old.next ≤ fresh.old.end) }
    ensures made { OnOk result ((t : Store Value)
        → IsWorking t (root_of_pair root.now) fresh.old set.old
        → AreMadeIn t (root_of_pair root.now) (edits_of edits.now)
        (map (λ c. arc_value c) cells.now) fresh.old fresh.new set.old set.new) }
    ensures numbers { OnlyTakes fresh.old fresh.new }
{
    match cells.split_first() {
        None => Ok(()),
        Some((first, rest)) => {
            edit_in(alloc, set, root, first, edits, fresh)?;
            edit_each(alloc, set, root, rest, edits, fresh)
        }
    }
}

// The edits of a cell, if it is a leaf that they change.
fn edit_in(
    alloc: Global,
    set: &mut WorkingSet,
    root: &Root,
    cell: &Cell,
    edits: &Edits,
    fresh: &mut Fresh,
) -> Result<(), Memory>
    requires working { (t : Store Value)
        × IsWorking t (root_of_pair root.now) fresh.old set.old }
    requires suits { SuitLeaves 16384 (edits_of edits.now) }
    requires numbers { (2 ^ 63 ≤ fresh.old.next) × (fresh.old.next ≤ fresh.old.end) }
    ensures edited { OnOk result ((t : Store Value)
        → IsWorking t (root_of_pair root.now) fresh.old set.old
        → IsEditedAt t (root_of_pair root.now) (edits_of edits.now) cell.now fresh.old fresh.new
        set.old set.new) }
    ensures numbers { OnlyTakes fresh.old fresh.new }
{
    if cell.level() == 1 && touches_leaf(edits, &cell.lo(), &cell.hi()) {
        edit(alloc, set, root, cell, edits, fresh)
    } else {
        Ok(())
    }
}

// The edits of a leaf that they change.
fn edit(
    alloc: Global,
    set: &mut WorkingSet,
    root: &Root,
    leaf: &Cell,
    edits: &Edits,
    fresh: &mut Fresh,
) -> Result<(), Memory>
    requires level { leaf.now.level ≡ 1 }
    requires touched { is_met (changed (edits_of edits.now)) (rank leaf.now.lo) (rank leaf.now.hi)
        ≡ true }
    requires working { (t : Store Value)
        × IsWorking t (root_of_pair root.now) fresh.old set.old }
    requires suits { SuitLeaves 16384 (edits_of edits.now) }
    requires numbers { (2 ^ 63 ≤ fresh.old.next) × (fresh.old.next ≤ fresh.old.end) }
    ensures edited { OnOk result ((t : Store Value)
        → IsWorking t (root_of_pair root.now) fresh.old set.old
        → IsEditedAt t (root_of_pair root.now) (edits_of edits.now) leaf.now fresh.old fresh.new
        set.old set.new) }
    ensures numbers { OnlyTakes fresh.old fresh.new }
{
    // what its units have to be is known of the node that it is
    let _node = leaf.node();
    let gets = edits_of_leaf(alloc, edits, None, &leaf.lo(), &leaf.hi())?;
    let items = gets.items(alloc)?;
    let cuts = gets.cuts();
    let given = items.as_slice();
    if !may_edit(alloc, set, root, leaf, cuts, given, fresh)? {
        return Err(Memory);
    }
    set.remake(alloc, &leaf.lo(), cuts, given, fresh)
}

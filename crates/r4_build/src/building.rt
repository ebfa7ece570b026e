//! All edits of a command, one leaf after another, as one change (docs/volume.md, "Building").

ghost use Rattle.std.specs.Prelude.{◌≡◌, ◌∷◌, ◌^◌, ◌≤◌, true, Contains, IfErr, IfOk, List, OnOk};
ghost use Rattle.std.specs.Prelude.{Option, length, map};
ghost use Rattle.std.specs.Arc.{arc_value};
ghost use Rattle.r4_base.specs.Key.{rank};
ghost use Rattle.r4_base.specs.Tree.{Root as TreeRoot, Store};
ghost use Rattle.r4_base.specs.Value.{Value};
ghost use Rattle.r4_measure.specs.r4_cell.Patch.{IsChange};
ghost use Rattle.r4_measure.specs.r4_cell.Seen.{CellSeen};
ghost use Rattle.r4_content.specs.Edited.{Intervals, changed, is_in};
ghost use Rattle.r4_content.specs.Held.{edits_of};
ghost use Rattle.r4_leaf_edits.specs.Suiting.{SuitLeaves};
ghost use Rattle.r4_measure.specs.r4_patch.Effect.{HasEffect};
ghost use Rattle.r4_measure.specs.r4_patch.Joining.{patch_of_change};
ghost use Rattle.r4_measure.specs.r4_patch.Part.{MeetsPart};
ghost use Rattle.r4_measure.specs.r4_path.Steps.{OnlyTakes};
ghost use Rattle.r4_measure.specs.r4_reach.Needs.{is_met};
ghost use Rattle.r4_measure.specs.r4_reach.Touched.{Body};
ghost use Rattle.r4_build.specs.Building.{AreNumbered, CanBuild, most_new, set_by};
ghost use Rattle.r4_build.specs.Making.{AreMadeIn, CanMake, IsMadeIn};

use r4_base::Memory;
use r4_content::Edits;
use r4_leaf_edits::{edits_of_leaf, touches_leaf};
use r4_measure::{Cell, Change, Fresh, WorkingSet};
use std::alloc::Global;
use std::sync::Arc;

/// Makes all edits of a command that lie in leaves, each leaf of its task once, and gives them as one change of the
/// cells of the task. It has no more new cells than what the edits ask for. The only error is want of memory: then the
/// numbers are as they were (docs/volume.md, "Building").
pub fn change_of(
    alloc: Global,
    cells: &[Arc<Cell>],
    edits: &Edits,
    fresh: &mut Fresh,
) -> Result<Change, Memory>
    requires can { (b : Option Body) × ((reads : Intervals) × ((t : Store Value) × ((r : TreeRoot)
        × CanBuild b (edits_of edits.now) reads t r fresh.old
        (map (λ c. arc_value c) cells.now)))) }
    requires suits { SuitLeaves 16384 (edits_of edits.now) }
    ensures change { IfOk result (λ d. IsChange d.old d.new d.root) }
    ensures meets { IfOk result (λ d. (b : Option Body) (reads : Intervals) (t : Store Value)
        (r : TreeRoot) → CanBuild b (edits_of edits.now) reads t r fresh.old
        (map (λ c. arc_value c) cells.now)
        → MeetsPart (patch_of_change d) t r) }
    ensures few { IfOk result (λ d. (b : Option Body) (reads : Intervals) (t : Store Value)
        (r : TreeRoot) → CanBuild b (edits_of edits.now) reads t r fresh.old
        (map (λ c. arc_value c) cells.now)
        → length d.new ≤ most_new b (edits_of edits.now) reads t r
        (map (λ c. arc_value c) cells.now)) }
    ensures effect { IfOk result (λ d. HasEffect (patch_of_change d)
        (is_in (changed (edits_of edits.now))) (set_by (edits_of edits.now))) }
    ensures old { IfOk result (λ d. (c : CellSeen) → Contains d.old c
        → Contains (map (λ x. arc_value x) cells.now) c) }
    ensures new { IfOk result (λ d. AreNumbered fresh.old fresh.new d) }
    ensures numbers { OnlyTakes fresh.old fresh.new }
    ensures unchanged { IfErr result (λ e. fresh.new ≡ fresh.old) }
{
    let mut set = WorkingSet::new(alloc, cells)?;
    let mut numbers = *fresh;
    make_each(alloc, &mut set, cells, edits, &mut numbers)?;
    *fresh = numbers;
    Ok(set.into_change())
}

/// Makes the edits that lie in leaves among these cells, one leaf after another, in a set of which their part of a tree
/// is known; numbers of new cells are taken as they are needed. The only error is want of memory: then the set and the
/// numbers may have changed (docs/volume.md, "Building").
pub fn make_each(
    alloc: Global,
    set: &mut WorkingSet,
    cells: &[Arc<Cell>],
    edits: &Edits,
    fresh: &mut Fresh,
) -> Result<(), Memory>
    requires can { (t : Store Value) × ((r : TreeRoot) × CanMake t r (edits_of edits.now)
        (map (λ c. arc_value c) cells.now) fresh.old set.old) }
    requires suits { SuitLeaves 16384 (edits_of edits.now) }
    requires numbers { (2 ^ 63 ≤ fresh.old.next) × (fresh.old.next ≤ fresh.old.end) }
    ensures made { OnOk result ((t : Store Value) (r : TreeRoot)
        → CanMake t r (edits_of edits.now) (map (λ c. arc_value c) cells.now) fresh.old set.old
        → AreMadeIn t r (edits_of edits.now) (map (λ c. arc_value c) cells.now)
        fresh.old fresh.new set.old set.new) }
    ensures numbers { OnlyTakes fresh.old fresh.new }
{
    match cells.split_first() {
        None => Ok(()),
        Some((first, rest)) => {
            make_in(alloc, set, first, edits, fresh)?;
            make_each(alloc, set, rest, edits, fresh)
        }
    }
}

// The edits of a cell, if it is a leaf that they change.
fn make_in(
    alloc: Global,
    set: &mut WorkingSet,
    cell: &Cell,
    edits: &Edits,
    fresh: &mut Fresh,
) -> Result<(), Memory>
    requires can { (t : Store Value) × ((r : TreeRoot) × ((cells : List CellSeen)
        × CanMake t r (edits_of edits.now) (cell.now ∷ cells) fresh.old set.old)) }
    requires suits { SuitLeaves 16384 (edits_of edits.now) }
    requires numbers { (2 ^ 63 ≤ fresh.old.next) × (fresh.old.next ≤ fresh.old.end) }
    ensures made { OnOk result ((t : Store Value) (r : TreeRoot) (cells : List CellSeen)
        → CanMake t r (edits_of edits.now) (cell.now ∷ cells) fresh.old set.old
        → IsMadeIn t r (edits_of edits.now) cell.now cells fresh.old fresh.new set.old set.new) }
    ensures numbers { OnlyTakes fresh.old fresh.new }
{
    if cell.level() == 1 && touches_leaf(edits, &cell.lo(), &cell.hi()) {
        make(alloc, set, cell, edits, fresh)
    } else {
        Ok(())
    }
}

// The edits of a leaf that they change.
fn make(
    alloc: Global,
    set: &mut WorkingSet,
    leaf: &Cell,
    edits: &Edits,
    fresh: &mut Fresh,
) -> Result<(), Memory>
    requires level { leaf.now.level ≡ 1 }
    requires touched { is_met (changed (edits_of edits.now)) (rank leaf.now.lo) (rank leaf.now.hi)
        ≡ true }
    requires can { (t : Store Value) × ((r : TreeRoot) × ((cells : List CellSeen)
        × CanMake t r (edits_of edits.now) (leaf.now ∷ cells) fresh.old set.old)) }
    requires suits { SuitLeaves 16384 (edits_of edits.now) }
    requires numbers { (2 ^ 63 ≤ fresh.old.next) × (fresh.old.next ≤ fresh.old.end) }
    ensures made { OnOk result ((t : Store Value) (r : TreeRoot) (cells : List CellSeen)
        → CanMake t r (edits_of edits.now) (leaf.now ∷ cells) fresh.old set.old
        → IsMadeIn t r (edits_of edits.now) leaf.now cells fresh.old fresh.new set.old set.new) }
    ensures numbers { OnlyTakes fresh.old fresh.new }
{
    // what its units have to be is known of the node that it is
    let _node = leaf.node();
    let gets = edits_of_leaf(alloc, edits, None, &leaf.lo(), &leaf.hi())?;
    let items = gets.items(alloc)?;
    set.remake(alloc, &leaf.lo(), gets.cuts(), items.as_slice(), fresh)
}

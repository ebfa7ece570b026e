//! All edits of a command whose body comes to extents, as one change (docs/volume.md, "Bodies in
//! extents").

ghost use Rattle.std.specs.Prelude.{◌≡◌, ◌+◌, ◌++◌, ◌∷◌, ◌≤◌, [], Contains, IfErr, IfOk, OnOk};
ghost use Rattle.std.specs.Prelude.{Some, length, map};
ghost use Rattle.std.specs.Arc.{arc_value};
ghost use Rattle.r4_base.specs.Tree.{Root as TreeRoot, Store};
ghost use Rattle.r4_base.specs.Value.{Value};
ghost use Rattle.r4_extent_shrink.specs.r4_extent_growth.r4_build.Building.{AreNumbered};
ghost use Rattle.r4_content.specs.Held.{edits_of};
ghost use Rattle.r4_extent_shrink.specs.r4_extent_growth.r4_extent_demands.Sizes.{AreExtentEdits};
ghost use Rattle.r4_extent_shrink.specs.r4_extent_growth.r4_measure.Budget.{Budget};
ghost use Rattle.r4_extent_shrink.specs.r4_extent_growth.r4_measure.r4_cell.Patch.{IsChange};
ghost use Rattle.r4_extent_shrink.specs.r4_extent_growth.r4_measure.r4_cell.Seen.{CellSeen};
ghost use Rattle.r4_extent_shrink.specs.r4_extent_growth.r4_measure.r4_patch.Effect.{HasEffect};
ghost use Rattle.r4_extent_shrink.specs.r4_extent_growth.r4_measure.r4_patch.Following.{is_among, without};
ghost use Rattle.r4_extent_shrink.specs.r4_extent_growth.r4_measure.r4_patch.Joining.{ids_of, patch_of_change};
ghost use Rattle.r4_extent_shrink.specs.r4_extent_growth.r4_measure.r4_patch.Part.{MeetsPart};
ghost use Rattle.r4_extent_shrink.specs.r4_extent_growth.r4_measure.r4_path.Steps.{OnlyTakes};
ghost use Rattle.r4_extent_turn.specs.Turning.{leaves_of};
ghost use Rattle.r4_extent_turn.specs.TurningIn.{turn_of};
ghost use Rattle.r4_extent_turned.specs.Whole.{CanTurn, cells_after, most_turned, turned_keys};
ghost use Rattle.r4_extent_turned.specs.Whole.{turned_values};

use r4_base::Memory;
use r4_content::Edits;
use r4_extent_shrink::{Cell, Fresh, SizedBody, without_bytes};
use r4_extent_turn::{Change, Turning, WorkingSet, add, make_each, turn_out};
use std::alloc::Global;
use std::sync::Arc;

/// Makes all edits of a command whose body comes out of tails, or had no bytes, to extents, and
/// gives them as one change of the cells of its task. The twig is packed anew once, with an extent
/// in the place of the leaves that have a key of its blocks; its blocks are made of the bytes that
/// stood in these leaves, of those that are set over them, and of zeros. Then each leaf with
/// attributes or entries that change is edited once, also what stays of the first of those leaves.
/// It has no more new cells than the budget has, without the leaves, which go, and with the blocks
/// that come and what stays of the leaves. The only error is want of memory: then the numbers are
/// as they were (docs/volume.md, "Bodies in extents").
pub fn change_of_turning(
    alloc: Global,
    cells: &[Arc<Cell>],
    body: &SizedBody,
    edits: &Edits,
    turning: &Turning,
    fresh: &mut Fresh,
) -> Result<Change, Memory>
    requires can { (u : Budget) × ((t : Store Value) × ((r : TreeRoot)
        × CanTurn body.now (edits_of edits.now) u t r fresh.old
        (map (λ c. arc_value c) cells.now) (turn_of turning.now))) }
    requires suits { AreExtentEdits (Some body.now) (edits_of edits.now) }
    ensures change { IfOk result (λ d. IsChange d.old d.new d.root) }
    ensures meets { IfOk result (λ d. (u : Budget) (t : Store Value) (r : TreeRoot)
        → CanTurn body.now (edits_of edits.now) u t r fresh.old (map (λ c. arc_value c) cells.now)
        (turn_of turning.now) → MeetsPart (patch_of_change d) t r) }
    ensures few { IfOk result (λ d. (u : Budget) (t : Store Value) (r : TreeRoot)
        → CanTurn body.now (edits_of edits.now) u t r fresh.old (map (λ c. arc_value c) cells.now)
        (turn_of turning.now) → length d.new + length (leaves_of (turn_of turning.now))
        ≤ most_turned body.now (edits_of edits.now) u r (map (λ c. arc_value c) cells.now)
        (turn_of turning.now)) }
    ensures effect { IfOk result (λ d. HasEffect (patch_of_change d)
        (turned_keys body.now (edits_of edits.now))
        (turned_values body.now (edits_of edits.now) (turn_of turning.now))) }
    ensures old { IfOk result (λ d. (c : CellSeen) → Contains d.old c
        → Contains (map (λ x. arc_value x) cells.now) c) }
    ensures new { IfOk result (λ d. AreNumbered fresh.old fresh.new d) }
    ensures numbers { OnlyTakes fresh.old fresh.new }
    ensures unchanged { IfErr result (λ e. fresh.new ≡ fresh.old) }
{
    let mut set = WorkingSet::new(alloc, cells)?;
    let mut numbers = *fresh;
    let kept = turn_out(alloc, &mut set, body, edits, turning, &mut numbers)?;
    let after = cells_after(alloc, cells, turning.leaves.as_slice(), kept.as_slice())?;
    let beside = without_bytes(alloc, edits)?;
    make_each(alloc, &mut set, after.as_slice(), &beside, &mut numbers)?;
    *fresh = numbers;
    Ok(set.into_change())
}

// The cells that have no number of a leaf, and behind them what stays of the leaves.
fn cells_after(
    alloc: Global,
    cells: &[Arc<Cell>],
    leaves: &[Arc<Cell>],
    kept: &[Arc<Cell>],
) -> Result<Vec<Arc<Cell>>, Memory>
    ensures { IfOk result (λ v. map (λ c. arc_value c) v.items
        ≡ without (ids_of (map (λ c. arc_value c) leaves.now)) (map (λ c. arc_value c) cells.now)
        ++ map (λ c. arc_value c) kept.now) }
{
    let mut after = Vec::new(alloc);
    for cell in cells {
        add_other(&mut after, leaves, cell)?;
    }
    add(&mut after, kept)?;
    Ok(after)
}

// Puts a cell behind others, where it has no number of a leaf.
fn add_other(
    others: &mut Vec<Arc<Cell>>,
    leaves: &[Arc<Cell>],
    cell: &Arc<Cell>,
) -> Result<(), Memory>
    ensures { OnOk result (map (λ c. arc_value c) others.new.items
        ≡ map (λ c. arc_value c) others.old.items
        ++ without (ids_of (map (λ c. arc_value c) leaves.now)) (arc_value cell.now ∷ [])) }
{
    if is_among(leaves, cell.id().0) {
        return Ok(());
    }
    others.push(Arc::try_clone(cell)?)?;
    Ok(())
}

// Whether one of the cells has a number.
fn is_among(cells: &[Arc<Cell>], id: u64) -> bool
    ensures { result ≡ is_among (ids_of (map (λ c. arc_value c) cells.now)) id }
{
    for cell in cells {
        if cell.id().0 == id {
            return true;
        }
    }
    false
}

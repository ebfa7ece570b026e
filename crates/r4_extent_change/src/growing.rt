//! All edits of a command whose body stands in extents and loses no blocks, as one change (docs/volume.md, "Bodies in
//! extents").

ghost use Rattle.std.specs.Prelude.{◌≡◌, ◌++◌, ◌∷◌, ◌≤◌, [], ℕ, Bool, Contains, IfErr, IfOk, OnOk, Some};
ghost use Rattle.std.specs.Prelude.{length, map};
ghost use Rattle.std.specs.Arc.{arc_value};
ghost use Rattle.r4_base.specs.Tree.{Root as TreeRoot, Store};
ghost use Rattle.r4_base.specs.Value.{Value};
ghost use Rattle.r4_build.specs.Building.{AreNumbered};
ghost use Rattle.r4_content.specs.Held.{edits_of};
ghost use Rattle.r4_extent_loss.specs.r4_extent_build.Looping.{AreKeysOfEach};
ghost use Rattle.r4_extent_counts.specs.r4_extent_demands.Sizes.{AreExtentEdits};
ghost use Rattle.r4_build.specs.r4_measure.Budget.{Budget};
ghost use Rattle.r4_build.specs.r4_measure.r4_cell.Patch.{IsChange};
ghost use Rattle.r4_build.specs.r4_measure.r4_cell.Seen.{CellSeen};
ghost use Rattle.r4_build.specs.r4_measure.r4_patch.Effect.{HasEffect};
ghost use Rattle.r4_build.specs.r4_measure.r4_patch.Joining.{patch_of_change};
ghost use Rattle.r4_build.specs.r4_measure.r4_patch.Part.{MeetsPart};
ghost use Rattle.r4_build.specs.r4_measure.r4_path.Steps.{OnlyTakes};
ghost use Rattle.r4_extent_change.specs.Beside.{turning_among};
ghost use Rattle.r4_extent_change.specs.Changing.{CanGrow, grown_keys, grown_values, most_grown};

use crate::beside::without_bytes;
use r4_base::Memory;
use r4_build::{Cell, Change, Fresh, WorkingSet, make_each};
use r4_content::Edits;
use r4_extent_counts::{SizedBody, changes_pieces};
use r4_extent_loss::regraft_each;
use r4_extent_renew::overwrite_among;
use std::alloc::Global;
use std::sync::Arc;

/// Makes all edits of a command whose body stands in extents and loses no blocks, and gives them as one change of the
/// cells of its task. Data blocks that stand get the bytes that are set in them, and their twigs are not touched; each
/// twig whose pieces change is packed anew once, with the data blocks that come, of the bytes that are set and of
/// zeros; and each leaf with attributes or entries that change is edited once. What is cut of the body stays. It has no
/// more new cells than the budget has, and the blocks that come. The only error is want of memory: then the numbers are
/// as they were (docs/volume.md, "Bodies in extents").
pub fn change_of_growing(
    alloc: Global,
    cells: &[Arc<Cell>],
    body: &SizedBody,
    edits: &Edits,
    fresh: &mut Fresh,
) -> Result<Change, Memory>
    requires can { (u : Budget) × ((t : Store Value) × ((r : TreeRoot)
        × CanGrow body.now (edits_of edits.now) u t r fresh.old
        (map (λ c. arc_value c) cells.now))) }
    requires suits { AreExtentEdits (Some body.now) (edits_of edits.now) }
    ensures change { IfOk result (λ d. IsChange d.old d.new d.root) }
    ensures meets { IfOk result (λ d. (u : Budget) (t : Store Value) (r : TreeRoot)
        → CanGrow body.now (edits_of edits.now) u t r fresh.old (map (λ c. arc_value c) cells.now)
        → MeetsPart (patch_of_change d) t r) }
    ensures few { IfOk result (λ d. (u : Budget) (t : Store Value) (r : TreeRoot)
        → CanGrow body.now (edits_of edits.now) u t r fresh.old (map (λ c. arc_value c) cells.now)
        → length d.new ≤ most_grown body.now (edits_of edits.now) u r
        (map (λ c. arc_value c) cells.now)) }
    ensures effect { IfOk result (λ d. (at : CellSeen → ℕ → Bool)
        → AreKeysOfEach body.now (edits_of edits.now)
        (turning_among body.now (edits_of edits.now) (map (λ c. arc_value c) cells.now)) at
        → HasEffect (patch_of_change d)
        (grown_keys body.now (edits_of edits.now) (map (λ c. arc_value c) cells.now) at)
        (grown_values (edits_of edits.now))) }
    ensures old { IfOk result (λ d. (c : CellSeen) → Contains d.old c
        → Contains (map (λ x. arc_value x) cells.now) c) }
    ensures new { IfOk result (λ d. AreNumbered fresh.old fresh.new d) }
    ensures numbers { OnlyTakes fresh.old fresh.new }
    ensures unchanged { IfErr result (λ e. fresh.new ≡ fresh.old) }
{
    let mut set = WorkingSet::new(alloc, cells)?;
    overwrite_among(alloc, &mut set, cells, edits)?;
    let mut numbers = *fresh;
    let mut twigs = Vec::new(alloc);
    pick_each(&mut twigs, body, edits, cells)?;
    regraft_each(alloc, &mut set, body, edits, twigs.as_slice(), &mut numbers)?;
    let beside = without_bytes(alloc, edits)?;
    make_each(alloc, &mut set, cells, &beside, &mut numbers)?;
    *fresh = numbers;
    Ok(set.into_change())
}

// Puts those twigs among some cells behind others whose pieces change.
fn pick_each(
    twigs: &mut Vec<Arc<Cell>>,
    body: &SizedBody,
    edits: &Edits,
    cells: &[Arc<Cell>],
) -> Result<(), Memory>
    requires { AreExtentEdits (Some body.now) (edits_of edits.now) }
    ensures { OnOk result (map (λ c. arc_value c) twigs.new.items
        ≡ map (λ c. arc_value c) twigs.old.items
        ++ turning_among body.now (edits_of edits.now) (map (λ c. arc_value c) cells.now)) }
{
    match cells.split_first() {
        None => Ok(()),
        Some((first, rest)) => {
            pick(twigs, body, edits, first)?;
            pick_each(twigs, body, edits, rest)
        }
    }
}

// Puts a cell behind others, where it is a twig whose pieces change.
fn pick(
    twigs: &mut Vec<Arc<Cell>>,
    body: &SizedBody,
    edits: &Edits,
    cell: &Arc<Cell>,
) -> Result<(), Memory>
    requires { AreExtentEdits (Some body.now) (edits_of edits.now) }
    ensures { OnOk result (map (λ c. arc_value c) twigs.new.items
        ≡ map (λ c. arc_value c) twigs.old.items
        ++ turning_among body.now (edits_of edits.now) (arc_value cell.now ∷ [])) }
{
    if cell.level() != 2 {
        return Ok(());
    }
    if !changes_pieces(Some(body), edits, cell) {
        return Ok(());
    }
    twigs.push(Arc::try_clone(cell)?)?;
    Ok(())
}

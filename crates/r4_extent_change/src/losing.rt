//! All edits of a command whose body stands in extents and loses blocks, as one change
//! (docs/volume.md, "Bodies in extents").

ghost use Rattle.std.specs.Prelude.{◌≡◌, ◌≤◌, Contains, IfErr, IfOk, Some, length, map};
ghost use Rattle.std.specs.Arc.{arc_value};
ghost use Rattle.r4_base.specs.Tree.{Root as TreeRoot, Store};
ghost use Rattle.r4_base.specs.Value.{Value};
ghost use Rattle.r4_build.specs.Building.{AreNumbered};
ghost use Rattle.r4_content.specs.Held.{edits_of};
ghost use Rattle.r4_extent_counts.specs.r4_extent_demands.Sizes.{AreExtentEdits};
ghost use Rattle.r4_build.specs.r4_measure.Budget.{Budget};
ghost use Rattle.r4_build.specs.r4_measure.r4_cell.Patch.{IsChange};
ghost use Rattle.r4_build.specs.r4_measure.r4_cell.Seen.{CellSeen};
ghost use Rattle.r4_build.specs.r4_measure.r4_patch.Effect.{HasEffect};
ghost use Rattle.r4_build.specs.r4_measure.r4_patch.Joining.{patch_of_change};
ghost use Rattle.r4_build.specs.r4_measure.r4_patch.Part.{MeetsPart};
ghost use Rattle.r4_build.specs.r4_measure.r4_path.Steps.{OnlyTakes};
ghost use Rattle.r4_extent_change.specs.Losing.{CanLose, lost_keys, lost_values, most_lost};

use crate::beside::without_bytes;
use crate::finding::losing_among;
use r4_base::Memory;
use r4_build::{Cell, Change, Fresh, WorkingSet, make_each};
use r4_content::Edits;
use r4_extent_counts::SizedBody;
use r4_extent_loss::regraft_without;
use std::alloc::Global;
use std::sync::Arc;

/// Makes all edits of a command whose body stands in extents and loses blocks, and gives them as
/// one change of the cells of its task. Each twig that loses blocks is packed anew once, and the
/// range of what goes is taken up by what stands left of it; then each leaf with attributes or
/// entries that change is edited once, also one that took up such a range. The last block that
/// stays is as it was. It has no more new cells than the budget has, and the leaves that come where
/// nothing left of what goes took it up. The only error is want of memory: then the numbers are as
/// they were (docs/volume.md, "Bodies in extents").
pub fn change_of_losing(
    alloc: Global,
    cells: &[Arc<Cell>],
    body: &SizedBody,
    edits: &Edits,
    fresh: &mut Fresh,
) -> Result<Change, Memory>
    requires can { (u : Budget) × ((t : Store Value) × ((r : TreeRoot)
        × CanLose body.now (edits_of edits.now) u t r fresh.old
        (map (λ c. arc_value c) cells.now))) }
    requires suits { AreExtentEdits (Some body.now) (edits_of edits.now) }
    ensures change { IfOk result (λ d. IsChange d.old d.new d.root) }
    ensures meets { IfOk result (λ d. (u : Budget) (t : Store Value) (r : TreeRoot)
        → CanLose body.now (edits_of edits.now) u t r fresh.old (map (λ c. arc_value c) cells.now)
        → MeetsPart (patch_of_change d) t r) }
    ensures few { IfOk result (λ d. (u : Budget) (t : Store Value) (r : TreeRoot)
        → CanLose body.now (edits_of edits.now) u t r fresh.old (map (λ c. arc_value c) cells.now)
        → length d.new ≤ most_lost body.now u r (map (λ c. arc_value c) cells.now)) }
    ensures effect { IfOk result (λ d. HasEffect (patch_of_change d)
        (lost_keys body.now (edits_of edits.now) (map (λ c. arc_value c) cells.now))
        (lost_values (edits_of edits.now))) }
    ensures old { IfOk result (λ d. (c : CellSeen) → Contains d.old c
        → Contains (map (λ x. arc_value x) cells.now) c) }
    ensures new { IfOk result (λ d. AreNumbered fresh.old fresh.new d) }
    ensures numbers { OnlyTakes fresh.old fresh.new }
    ensures unchanged { IfErr result (λ e. fresh.new ≡ fresh.old) }
{
    let mut set = WorkingSet::new(alloc, cells)?;
    let mut numbers = *fresh;
    let losing = losing_among(alloc, body, cells)?;
    regraft_without(
        alloc,
        &mut set,
        body,
        edits,
        losing.as_slice(),
        &mut numbers,
    )?;
    let beside = without_bytes(alloc, edits)?;
    make_each(alloc, &mut set, cells, &beside, &mut numbers)?;
    *fresh = numbers;
    Ok(set.into_change())
}

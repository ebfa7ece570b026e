//! The change of a task whose body comes out of tails, or had no bytes, to extents (docs/volume.md,
//! "Bodies in extents").

ghost use Rattle.std.specs.Prelude.{◌≡◌, IfOk, IfSome, Some, map, true};
ghost use Rattle.std.specs.Arc.{arc_value};
ghost use Rattle.r4_put_tasks.specs.r4_build.r4_reach.Touched.{turns_out};
ghost use Rattle.r4_content.specs.Held.{edits_of};
ghost use Rattle.r4_made.specs.Making.{IsMadeIn, IsPlanned, MayBeBuilt, over};
ghost use Rattle.r4_put_tasks.specs.r4_turned_tasks.r4_extent_turned.Finding.{turn_among};
ghost use Rattle.r4_put_tasks.specs.r4_turned_tasks.r4_extent_turned.r4_extent_turn.TurningIn.{turn_of};

use crate::allowing::allowance;
use crate::growing::grown_in;
use r4_base::Memory;
use r4_content::Edits;
use r4_put_tasks::{
    Cell, Change, SizedBody, Task, Turning, change_of_turning, may_turn, turning_among,
    twig_turning,
};
use std::alloc::Global;
use std::sync::Arc;

/// Makes the change of a task whose body comes to extents, of these cells in the place of those
/// that it writes: out of leaves, or where no leaf is among them that has a key of it; none where
/// it may not be made of them. The only error is want of memory: also where the cells above the
/// twigs do not suffice (docs/volume.md, "Bodies in extents").
pub(crate) fn turned_in(
    alloc: Global,
    task: &Task,
    cells: &[Arc<Cell>],
    body: &SizedBody,
    edits: &Edits,
) -> Result<Option<Change>, Memory>
    requires task { MayBeBuilt (over task.now (map (λ c. arc_value c) cells.now)) }
    requires planned { IsPlanned task.now (edits_of edits.now) (Some body.now) }
    requires turns { turns_out body.now ≡ true }
    ensures { IfOk result (λ o. IfSome o
        (λ d. IsMadeIn task.now (map (λ c. arc_value c) cells.now) d)) }
{
    match turning_among(alloc, body, cells)? {
        Some(turning) => turned_at(alloc, task, cells, body, edits, &turning),
        None => grown_in(alloc, task, cells, body, edits),
    }
}

// The same with its twig and leaves.
fn turned_at(
    alloc: Global,
    task: &Task,
    cells: &[Arc<Cell>],
    body: &SizedBody,
    edits: &Edits,
    turning: &Turning,
) -> Result<Option<Change>, Memory>
    requires task { MayBeBuilt (over task.now (map (λ c. arc_value c) cells.now)) }
    requires planned { IsPlanned task.now (edits_of edits.now) (Some body.now) }
    requires among { turn_among body.now (map (λ c. arc_value c) cells.now)
        ≡ Some (turn_of turning.now) }
    ensures { IfOk result (λ o. IfSome o
        (λ d. IsMadeIn task.now (map (λ c. arc_value c) cells.now) d)) }
{
    if !may_turn(alloc, body, edits, cells, turning, &task.fresh)? {
        return Ok(None);
    }
    let twigs = twig_turning(alloc, body, edits, turning)?;
    let _table = allowance(alloc, task, cells, twigs.as_slice())?;
    let mut fresh = task.fresh;
    let change = change_of_turning(alloc, cells, body, edits, turning, &mut fresh)?;
    Ok(Some(change))
}

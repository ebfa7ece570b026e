//! The change of a task, by where the body stands that its command changes (docs/volume.md,
//! "Bodies in extents").

ghost use Rattle.std.specs.Prelude.{◌≡◌, IfOk, IfSome, Some, false, map, true};
ghost use Rattle.std.specs.Arc.{arc_value};
ghost use Rattle.std.specs.Option.{option_copied};
ghost use Rattle.r4_put_tasks.specs.r4_build.r4_reach.Touched.{is_spread};
ghost use Rattle.r4_content.specs.Held.{edits_of};
ghost use Rattle.r4_made.specs.Making.{IsMadeIn, IsMadeOf, IsPlanned, MayBeBuilt, over};

use crate::gathering::{gathered, joined};
use crate::growing::grown_in;
use crate::losing::lost;
use crate::putting::put;
use crate::turning::turned_in;
use r4_base::Memory;
use r4_content::Edits;
use r4_put_tasks::{Cell, Change, SizedBody, Task};
use std::alloc::Global;
use std::sync::Arc;

/// The change of a task whose cells have extents. The only error is want of memory: also where it
/// may not be made of the task's cells (docs/volume.md, "Bodies in extents").
pub(crate) fn change_of_task(
    alloc: Global,
    task: &Task,
    body: Option<&SizedBody>,
    edits: &Edits,
) -> Result<Change, Memory>
    requires task { MayBeBuilt task.now }
    requires outside { task.now.scope.in_leaves ≡ false }
    requires planned { IsPlanned task.now (edits_of edits.now) (option_copied body) }
    ensures { IfOk result (IsMadeOf task.now) }
{
    match body {
        Some(body) if body.is_spread() => spread(alloc, task, body, edits),
        _ => put(alloc, task, body, edits),
    }
}

// The change of a task whose body stands in extents afterwards.
fn spread(alloc: Global, task: &Task, body: &SizedBody, edits: &Edits) -> Result<Change, Memory>
    requires task { MayBeBuilt task.now }
    requires outside { task.now.scope.in_leaves ≡ false }
    requires planned { IsPlanned task.now (edits_of edits.now) (Some body.now) }
    requires spread { is_spread body.now ≡ true }
    ensures { IfOk result (IsMadeOf task.now) }
{
    let going = body.going();
    if body.stood_in_extents() && going.from.is_below(going.to) {
        return lost(alloc, task, body, edits);
    }
    lengthened(alloc, task, body, edits)
}

// The change of a task whose body comes to extents, or stands in some and loses no blocks: of its
// cells as they are, or else of what they are once they are gathered below one twig.
fn lengthened(alloc: Global, task: &Task, body: &SizedBody, edits: &Edits) -> Result<Change, Memory>
    requires task { MayBeBuilt task.now }
    requires outside { task.now.scope.in_leaves ≡ false }
    requires planned { IsPlanned task.now (edits_of edits.now) (Some body.now) }
    requires spread { is_spread body.now ≡ true }
    ensures { IfOk result (IsMadeOf task.now) }
{
    if let Some(change) = lengthened_in(alloc, task, task.writes.as_slice(), body, edits)? {
        return Ok(change);
    }
    let gathered = gathered(alloc, task, body)?;
    match lengthened_in(alloc, task, gathered.cells.as_slice(), body, edits)? {
        Some(change) => joined(alloc, task, &gathered, &change),
        None => Err(Memory),
    }
}

// The same of these cells in the place of those that the task writes; none where it may not be made
// of them.
fn lengthened_in(
    alloc: Global,
    task: &Task,
    cells: &[Arc<Cell>],
    body: &SizedBody,
    edits: &Edits,
) -> Result<Option<Change>, Memory>
    requires task { MayBeBuilt (over task.now (map (λ c. arc_value c) cells.now)) }
    requires planned { IsPlanned task.now (edits_of edits.now) (Some body.now) }
    requires spread { is_spread body.now ≡ true }
    ensures { IfOk result (λ o. IfSome o
        (λ d. IsMadeIn task.now (map (λ c. arc_value c) cells.now) d)) }
{
    if body.stood_in_extents() {
        grown_in(alloc, task, cells, body, edits)
    } else {
        turned_in(alloc, task, cells, body, edits)
    }
}

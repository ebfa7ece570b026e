//! The change of a task whose body stands in extents and loses blocks (docs/volume.md, "Bodies in
//! extents").

ghost use Rattle.std.specs.Prelude.{◌≡◌, IfOk, Some, true};
ghost use Rattle.r4_content.specs.Held.{edits_of};
ghost use Rattle.r4_made.specs.Losing.{MayBeLost};
ghost use Rattle.r4_made.specs.Making.{IsMadeOf, IsPlanned, MayBeBuilt};

use crate::allowing::allowance;
use r4_base::Memory;
use r4_content::Edits;
use r4_put_tasks::{
    Change, SizedBody, Task, blocks_have_twigs, change_of_losing, may_lose, twigs_losing,
};
use std::alloc::Global;

/// Makes the change of a task whose body loses blocks. The only error is want of memory: also where
/// it may not be made of the task's cells (docs/volume.md, "Bodies in extents").
pub(crate) fn lost(
    alloc: Global,
    task: &Task,
    body: &SizedBody,
    edits: &Edits,
) -> Result<Change, Memory>
    requires task { MayBeBuilt task.now }
    requires planned { IsPlanned task.now (edits_of edits.now) (Some body.now) }
    requires in_extents { body.now.in_extents ≡ true }
    ensures { IfOk result (IsMadeOf task.now) }
{
    let cells = task.writes.as_slice();
    if !may_be_lost(alloc, task, body, edits)? {
        return Err(Memory);
    }
    let twigs = twigs_losing(alloc, body, edits, cells)?;
    let _table = allowance(alloc, task, cells, twigs.as_slice())?;
    let mut fresh = task.fresh;
    let change = change_of_losing(alloc, cells, body, edits, &mut fresh)?;
    Ok(change)
}

// Whether the blocks that go of a body may go of the task's cells, and these have them all.
fn may_be_lost(alloc: Global, task: &Task, body: &SizedBody, edits: &Edits) -> Result<bool, Memory>
    requires planned { IsPlanned task.now (edits_of edits.now) (Some body.now) }
    requires in_extents { body.now.in_extents ≡ true }
    ensures { IfOk result (λ ok. ok ≡ true → MayBeLost task.now body.now (edits_of edits.now)) }
{
    let cells = task.writes.as_slice();
    if !edits.zeros.as_slice().is_empty() || !blocks_have_twigs(body, cells) {
        return Ok(false);
    }
    let may = may_lose(alloc, body, edits, cells, &task.fresh)?;
    Ok(may)
}

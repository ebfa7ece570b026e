//! The change of a task of which values come among extents, and whose body, if it has one, stands
//! in no extents afterwards (docs/volume.md, "Bodies in extents").

ghost use Rattle.std.specs.Prelude.{◌≡◌, IfOk, true};
ghost use Rattle.std.specs.Option.{option_copied};
ghost use Rattle.r4_content.specs.Held.{edits_of};
ghost use Rattle.r4_made.specs.Making.{IsMadeOf, IsPlanned, MayBeBuilt};
ghost use Rattle.r4_made.specs.Putting.{MayBePut};

use crate::allowing::allowance;
use r4_base::Memory;
use r4_content::Edits;
use r4_put_tasks::{
    Change, SizedBody, Task, change_of_putting, have_lawful_keys, look_at_twigs, may_put,
    twigs_putting,
};
use std::alloc::Global;

/// Makes the change of a task whose values may come among extents. The only error is want of
/// memory: also where it may not be made of the task's cells (docs/volume.md, "Bodies in extents").
pub(crate) fn put(
    alloc: Global,
    task: &Task,
    body: Option<&SizedBody>,
    edits: &Edits,
) -> Result<Change, Memory>
    requires task { MayBeBuilt task.now }
    requires planned { IsPlanned task.now (edits_of edits.now) (option_copied body) }
    ensures { IfOk result (IsMadeOf task.now) }
{
    let cells = task.writes.as_slice();
    if !may_be_put(alloc, task, body, edits)? {
        return Err(Memory);
    }
    let twigs = twigs_putting(alloc, body, edits, cells)?;
    let _table = allowance(alloc, task, cells, twigs.as_slice())?;
    let mut fresh = task.fresh;
    let root = &task.scope.root;
    let change = change_of_putting(alloc, root, cells, body, edits, &mut fresh)?;
    Ok(change)
}

// Whether values may be put among the extents of the task's cells.
fn may_be_put(
    alloc: Global,
    task: &Task,
    body: Option<&SizedBody>,
    edits: &Edits,
) -> Result<bool, Memory>
    requires planned { IsPlanned task.now (edits_of edits.now) (option_copied body) }
    ensures { IfOk result (λ ok. ok ≡ true
        → MayBePut task.now (option_copied body.entry) (edits_of edits.now)) }
{
    let cells = task.writes.as_slice();
    look_at_twigs(cells);
    if !have_lawful_keys(edits) {
        return Ok(false);
    }
    let may = may_put(alloc, body, edits, cells, &task.fresh)?;
    Ok(may)
}

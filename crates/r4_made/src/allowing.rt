//! What may still come in the place of some cells (docs/volume.md, "What may still come").

ghost use Rattle.std.specs.Prelude.{IfOk, map};
ghost use Rattle.std.specs.Arc.{arc_value};
ghost use Rattle.r4_put_tasks.specs.r4_lost_tasks.r4_extent_shrink.r4_extent_growth.Coming.{count_of};
ghost use Rattle.r4_made.specs.Making.{CountsOnce, IsAllowance};

use r4_base::{Memory, NodeId};
use r4_put_tasks::{Allowance, Cell, Task, allowances, is_allowed};
use std::alloc::Global;
use std::sync::Arc;

/// The table of what may still come in the place of some cells, over which a task is built, where
/// so many twigs may come beside these. The only error is want of memory: also where it may not
/// come, by what the cells tell (docs/volume.md, "What may still come").
pub(crate) fn allowance(
    alloc: Global,
    task: &Task,
    cells: &[Arc<Cell>],
    twigs: &[(NodeId, u64)],
) -> Result<Vec<Allowance>, Memory>
    requires { CountsOnce (map count_of twigs.now) }
    ensures { IfOk result (λ table. IsAllowance task.now (map (λ c. arc_value c) cells.now)
        (map count_of twigs.now) table.items) }
{
    let table = allowances(alloc, &task.scope.root, cells, twigs)?;
    if !is_allowed(&task.scope.root, cells, table.as_slice()) {
        return Err(Memory);
    }
    Ok(table)
}

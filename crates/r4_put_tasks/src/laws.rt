//! A law of tasks that put values among extents. It is the contract of a function that does
//! nothing.

ghost use Rattle.r4_base.specs.Value.{Value};
ghost use Rattle.r4_put_tasks.specs.Put.{IsPutFor};
ghost use Rattle.r4_turned_tasks.specs.r4_task_moves.r4_extent_moves.r4_applied.r4_build.Built.{IsMove};
ghost use Rattle.r4_turned_tasks.specs.r4_task_moves.r4_extent_moves.r4_applied.r4_build.declared.task.Task.{Task};
ghost use Rattle.r4_turned_tasks.specs.r4_task_moves.r4_extent_moves.r4_applied.r4_sets_told.r4_cell.Patch.{Patch};

/// The change of a command of which values come among extents, and whose body, if it has one,
/// stands in no extents afterwards, moves units as the command means, wherever its task may be
/// done: where the edits cut a key and no leaf of the task has it, nothing stands, so what
/// `change_of_putting` of r4_extent_put makes is all that the command changes (docs/volume.md,
/// "Bodies in extents").
pub fn put_tasks_move()
    ensures { (task : Task) (p : Patch Value) → IsPutFor task p → IsMove task p }
{}

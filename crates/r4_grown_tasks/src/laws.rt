//! The law of the changes of tasks whose bodies lose no blocks. It is the contract of a function
//! that does nothing.

ghost use Rattle.std.specs.Prelude.{List};
ghost use Rattle.r4_base.specs.Value.{Value};
ghost use Rattle.r4_grown_tasks.specs.GrownTask.{IsGrownFor};
ghost use Rattle.r4_lost_tasks.specs.r4_task_moves.r4_extent_moves.r4_applied.r4_build.Built.{IsMove};
ghost use Rattle.r4_lost_tasks.specs.r4_task_moves.r4_extent_moves.r4_applied.r4_build.declared.task.Task.{Task};
ghost use Rattle.r4_lost_tasks.specs.r4_task_moves.r4_extent_moves.r4_applied.r4_reach.Touched.{Body};
ghost use Rattle.r4_lost_tasks.specs.r4_task_moves.r4_extent_moves.r4_applied.r4_sets_told.r4_cell.Patch.{Patch};
ghost use Rattle.r4_lost_tasks.specs.r4_task_moves.r4_extent_moves.r4_applied.r4_sets_told.r4_cell.Seen.{CellSeen};

/// What `change_of_growing` of r4_extent_change makes of the cells that a task writes, or of cells
/// in their place that have the same units, where each byte that is set gets its place among them,
/// moves units as the task's command means.
pub fn grown_tasks_move()
    ensures { (task : Task) (p : Patch Value) (b : Body) (cells : List CellSeen)
        → IsGrownFor task p b cells → IsMove task p }
{}

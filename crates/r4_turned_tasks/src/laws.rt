//! The law of the changes of tasks whose bodies come to extents. It is the contract of a function
//! that does nothing.

ghost use Rattle.r4_base.specs.Value.{Value};
ghost use Rattle.r4_grown_tasks.specs.r4_task_moves.r4_extent_moves.r4_applied.r4_build.Built.{IsMove};
ghost use Rattle.r4_grown_tasks.specs.r4_task_moves.r4_extent_moves.r4_applied.r4_build.declared.task.Task.{Task};
ghost use Rattle.r4_grown_tasks.specs.r4_task_moves.r4_extent_moves.r4_applied.r4_reach.Touched.{Body};
ghost use Rattle.r4_grown_tasks.specs.r4_task_moves.r4_extent_moves.r4_applied.r4_sets_told.r4_cell.Patch.{Patch};
ghost use Rattle.r4_grown_tasks.specs.r4_turned_moves.r4_extent_turned.r4_extent_turn.Turning.{Turn};
ghost use Rattle.r4_turned_tasks.specs.TurnedTask.{IsTurnedFor};

/// What `change_of_turning` of r4_extent_turned makes of the cells of a task moves units as the
/// task's command means.
pub fn turned_tasks_move()
    ensures { (task : Task) (p : Patch Value) (b : Body) (x : Turn) → IsTurnedFor task p b x
        → IsMove task p }
{}

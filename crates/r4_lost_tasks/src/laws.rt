//! Laws of the changes of tasks whose bodies lose blocks. Each is the contract of a function that
//! does nothing.

ghost use Rattle.std.specs.Prelude.{◌≡◌, ℕ, List, true};
ghost use Rattle.r4_base.specs.Value.{Value};
ghost use Rattle.r4_content.specs.Edited.{is_between};
ghost use Rattle.r4_task_moves.specs.r4_extent_shrink.r4_extent_build.Growing.{end_after, end_before};
ghost use Rattle.r4_task_moves.specs.r4_extent_shrink.r4_extent_change.Among.{GoesAt};
ghost use Rattle.r4_task_moves.specs.r4_extent_shrink.r4_measure.r4_cell.Seen.{CellSeen};
ghost use Rattle.r4_lost_tasks.specs.Going.{IsLostFor, have_blocks};
ghost use Rattle.r4_task_moves.specs.r4_extent_moves.r4_applied.r4_build.Built.{IsMove};
ghost use Rattle.r4_task_moves.specs.r4_extent_moves.r4_applied.r4_build.declared.task.Task.{Task};
ghost use Rattle.r4_task_moves.specs.r4_extent_moves.r4_applied.r4_reach.Touched.{Body};
ghost use Rattle.r4_task_moves.specs.r4_extent_moves.r4_applied.r4_sets_told.r4_cell.Patch.{Patch};

/// Where `blocks_have_twigs` says so, each key of the blocks that go lies in a twig among the cells.
pub fn twigs_have_blocks()
    ensures { (b : Body) (cells : List CellSeen) (k : ℕ) → have_blocks b cells ≡ true
        → is_between (end_after b) (end_before b) k ≡ true → GoesAt b cells k }
{}

/// What `change_of_losing` of r4_extent_change makes of the cells of a task, where its twigs have
/// the blocks that go, moves units as the task's command means.
pub fn lost_tasks_move()
    ensures { (task : Task) (p : Patch Value) (b : Body) → IsLostFor task p b → IsMove task p }
{}

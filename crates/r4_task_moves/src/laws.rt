//! Laws of the changes of tasks. Each is the contract of a function that does nothing.

ghost use Rattle.std.specs.Prelude.{◌≡◌, ℕ, Bool, Option, Some};
ghost use Rattle.r4_base.specs.Tree.{Root, Store};
ghost use Rattle.r4_base.specs.Value.{Content, Value};
ghost use Rattle.r4_turned_moves.specs.r4_extent_moves.Moving.{ChangesBody};
ghost use Rattle.r4_turned_moves.specs.r4_extent_moves.r4_applied.r4_build.Built.{IsMove, IsPlaceFor, edits_for};
ghost use Rattle.r4_turned_moves.specs.r4_extent_moves.r4_applied.r4_build.declared.task.Task.{Task};
ghost use Rattle.r4_turned_moves.specs.r4_extent_moves.r4_applied.r4_patch.Effect.{Placed};
ghost use Rattle.r4_turned_moves.specs.r4_extent_moves.r4_applied.r4_sets_told.r4_cell.Patch.{Patch};
ghost use Rattle.r4_turned_moves.specs.r4_extent_moves.r4_applied.r4_reach.Touched.{Body};
ghost use Rattle.r4_task_moves.specs.Doing.{IsBodyMove, body_for};

/// Where a task may be done, all keys of bodies that its edits change are of the one file whose
/// body it is; its size before and after is what its attributes tell, and where it has bytes
/// afterwards it is there, as a file.
pub fn tasks_change_one_body()
    ensures { (task : Task) (b : Body) (u : Store Value) (root : Root) (raw n : Content)
        → body_for task ≡ Some b → IsPlaceFor task u root raw n
        → ChangesBody b (edits_for task) u raw n }
{}

/// So a patch that moves the body's units, wherever the task may be done, moves them as the task's
/// command means.
pub fn body_moves_are_meant()
    ensures { (task : Task) (p : Patch Value) (b : Body) (at : ℕ → Bool)
        (to : ℕ → Option (Placed Value)) → IsBodyMove task p b at to → IsMove task p }
{}

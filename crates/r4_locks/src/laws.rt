//! Laws of the definitions. Each is the contract of a function that does nothing.

ghost use Rattle.std.specs.Prelude.{◌≡◌, ℕ, List, All, Option, Some, None};
ghost use Rattle.r4_base.specs.declared.things.NodeId.{NodeId};
ghost use Rattle.r4_base.specs.declared.things.TaskId.{TaskId};
ghost use Rattle.r4_locks.specs.Locks.{LocksSeen, IsFirstConflict, IsFree, conflict_of, first_conflict, mode_of};
ghost use Rattle.r4_locks.specs.declared.things.Mode.{Mode};

/// What is named of names is the first of them that another task holds in a mode that conflicts, with the smallest such
/// task; and nothing is named where each of them is free.
pub fn conflict_law()
    ensures found { (t : LocksSeen) (mine : Option TaskId) (wanted : Mode) (names : List NodeId)
        (node : NodeId) (holder : TaskId) → first_conflict t mine wanted names ≡ Some (node, holder)
        → IsFirstConflict t mine wanted names node holder }
    ensures none { (t : LocksSeen) (mine : Option TaskId) (wanted : Mode) (names : List NodeId)
        → first_conflict t mine wanted names ≡ None → All (λ name. IsFree t mine wanted name.0) names }
{}

/// What is named for a task that holds nothing is what is named for none.
pub fn no_holds_law()
    ensures { (t : LocksSeen) (who : TaskId) (reads writes : List NodeId)
        → ((node : ℕ) → mode_of t who.0 node ≡ None)
        → conflict_of t (Some who) reads writes ≡ conflict_of t None reads writes }
{}

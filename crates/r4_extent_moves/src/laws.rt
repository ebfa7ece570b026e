//! Laws of bodies in extents that are changed. Each is the contract of a function that does nothing.

ghost use Rattle.std.specs.Prelude.{◌≡◌, ◌⊎◌, ℕ, Bool, false, List, Option};
ghost use Rattle.r4_base.specs.Tree.{IsTree, Root, Store};
ghost use Rattle.r4_base.specs.Value.{Content, Value};
ghost use Rattle.r4_base.specs.Volume.{HasExtents, HasStat, HasTails, is_directory};
ghost use Rattle.r4_base.specs.declared.items.Attr.{Attr};
ghost use Rattle.r4_base.specs.declared.items.Target.{Target};
ghost use Rattle.r4_content.specs.Edited.{Edits, Intervals};
ghost use Rattle.r4_content.specs.Units.{MovesUnits};
ghost use Rattle.r4_applied.specs.r4_patch.Effect.{HasEffect, IsSetAt, Placed};
ghost use Rattle.r4_applied.specs.r4_patch.Part.{MeetsPart};
ghost use Rattle.r4_applied.specs.r4_reach.Touched.{Body};
ghost use Rattle.r4_applied.specs.r4_sets_told.r4_cell.Patch.{Patch, place};
ghost use Rattle.r4_applied.specs.r4_sets_told.r4_cell.Seen.{CellSeen};
ghost use Rattle.r4_allowed.specs.r4_extent_change.Changing.{grown_keys, grown_values};
ghost use Rattle.r4_allowed.specs.r4_extent_change.Losing.{lost_keys, lost_values};
ghost use Rattle.r4_extent_moves.specs.Grown.{GrowsBody};
ghost use Rattle.r4_extent_moves.specs.Lost.{LosesBody};
ghost use Rattle.r4_extent_moves.specs.Moving.{AreKeys, ChangesBody, MovesBody};

/// A change that leaves at each key of a body what is to stand there, and else moves just the keys that edits change,
/// moves the units of a tree as the edits say: what is visible of them then is the content that they make.
pub fn moved_bodies_are_edited()
    ensures { (b : Body) (e : Edits) (u : Store Value) (raw n after : Content) (at : ℕ → Bool)
        (to : ℕ → Option (Placed Value)) (moved : Intervals) → ChangesBody b e u raw n
        → MovesBody b e u raw at to → AreKeys moved at → IsSetAt at to raw after
        → MovesUnits e n raw after moved }
{}

/// With such a change in place each file stands as files do: the body that is changed in extents, just the blocks that
/// its size needs, and every other one as it stood.
pub fn bodies_stand_in_extents()
    ensures { (b : Body) (e : Edits) (u : Store Value) (root : Root) (p : Patch Value)
        (raw n after : Content) (at : ℕ → Bool) (to : ℕ → Option (Placed Value)) (o : Target)
        (a : Attr) → ChangesBody b e u raw n → MovesBody b e u raw at to → IsTree u root
        → MeetsPart p u root → HasEffect p at to → IsSetAt at to raw after → HasStat after o a
        → is_directory a ≡ false → HasTails (place p u) o a.size ⊎ HasExtents (place p u) o a.size }
{}

/// The change that `change_of_growing` of r4_extent_change makes of a body in extents that loses no
/// blocks is such a change: it leaves at each key of the body what is to stand there, and else moves
/// just the keys that the edits change.
pub fn grown_bodies_move()
    ensures { (b : Body) (e : Edits) (u : Store Value) (raw n : Content) (cells : List CellSeen)
        (keys : CellSeen → ℕ → Bool) → ChangesBody b e u raw n → GrowsBody b e u raw cells keys
        → MovesBody b e u raw (grown_keys b e cells keys) (grown_values e) }
{}

/// The change that `change_of_losing` of r4_extent_change makes of a body in extents that loses
/// blocks is such a change: nothing is left behind the blocks that the body needs, and these are as
/// they were, also what is cut of the last one. Else it moves just the keys that the edits change.
/// So the content becomes what the edits make of it, by the laws above.
pub fn lost_bodies_move()
    ensures { (b : Body) (e : Edits) (u : Store Value) (raw n : Content) (cells : List CellSeen)
        → ChangesBody b e u raw n → LosesBody b e u raw cells
        → MovesBody b e u raw (lost_keys b e cells) (lost_values e) }
{}

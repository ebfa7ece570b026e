//! Laws of edits. Each is the contract of a function that does nothing.

ghost use Rattle.std.specs.Prelude.{ℕ, List, Option};
ghost use Rattle.r4_base.specs.Tree.{Root, Store};
ghost use Rattle.r4_base.specs.Value.{Value};
ghost use Rattle.r4_patch.specs.r4_cell.Patch.{IsChange, patch_of};
ghost use Rattle.r4_patch.specs.r4_cell.Seen.{CellSeen};
ghost use Rattle.r4_patch.specs.Part.{MeetsPart};
ghost use Rattle.r4_path.specs.Steps.{IsPathChange, Step, news, olds, root_pair};

/// A change along a path of a part of a tree, in which the cells of each level share out the old one's range and what it
/// named, is a patch, and that part meets it (docs/volume.md, "Edits").
pub fn path_changes_are_patches()
    ensures change { (t : Store Value) (r : Root) (from : ℕ) (steps : List Step) (over : Option CellSeen)
        → IsPathChange t r from steps over → IsChange (olds steps) (news steps over) (root_pair over) }
    ensures meets { (t : Store Value) (r : Root) (from : ℕ) (steps : List Step) (over : Option CellSeen)
        → IsPathChange t r from steps over → MeetsPart (patch_of (olds steps) (news steps over) (root_pair over)) t r }
{}

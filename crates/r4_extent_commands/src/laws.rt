//! Laws of the bodies that commands change. Each is the contract of a function that does nothing.

ghost use Rattle.std.specs.Prelude.{Bool};
ghost use Rattle.r4_content.specs.Edited.{Pairs, changed};
ghost use Rattle.r4_content.specs.Fields.{HasBytePaths};
ghost use Rattle.r4_content.specs.Seen.{Rises};
ghost use Rattle.r4_content.specs.declared.command.Command.{Command};
ghost use Rattle.r4_suited.specs.r4_reach.Touched.{body_on, edits_on};
ghost use Rattle.r4_suited.specs.Suited.{AreLawfulSeen};
ghost use Rattle.r4_extent_commands.specs.Bodies.{HaveSizes, KeepsFileSize, LiesInBody};

/// A body that had no more bytes than a file may have has no more after a command (docs/volume.md, "Reach").
pub fn bodies_keep_file_sizes()
    ensures { (c : Command) (s : Pairs) (in_extents : Bool) → HasBytePaths c → Rises s
        → AreLawfulSeen c s → HaveSizes c s → KeepsFileSize (body_on c s in_extents) }
{}

/// The keys of bodies that a command changes are all of one file: each interval of them begins with one and ends within
/// the file's keys (docs/volume.md, "Reach").
pub fn edits_lie_in_one_body()
    ensures { (c : Command) (s : Pairs) (in_extents : Bool) → HasBytePaths c → AreLawfulSeen c s
        → HaveSizes c s → LiesInBody (body_on c s in_extents) (changed (edits_on c s)) }
{}

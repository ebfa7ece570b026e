//! Laws of what is asked of twigs. Each is the contract of a function that does nothing.

ghost use Rattle.std.specs.Prelude.{Bool};
ghost use Rattle.r4_content.specs.Edited.{Pairs};
ghost use Rattle.r4_content.specs.Fields.{HasBytePaths};
ghost use Rattle.r4_content.specs.Seen.{Rises};
ghost use Rattle.r4_content.specs.declared.command.Command.{Command};
ghost use Rattle.r4_bodies.specs.r4_leaf_edits.r4_reach.Touched.{body_on, edits_on};
ghost use Rattle.r4_bodies.specs.r4_suited.Suited.{AreLawfulSeen};
ghost use Rattle.r4_extent_demands.specs.Sizes.{AreExtentEdits, IsSized};

/// Of the edits of a command, whose paths are of bytes, twigs may be asked, where what was seen is lawful and the body
/// that changes, if there is one, has no more bytes, before and after, than a file may have (docs/volume.md,
/// "Reach").
pub fn commands_of_extents_may_ask()
    ensures { (c : Command) (s : Pairs) (in_extents : Bool)
        → HasBytePaths c → Rises s → AreLawfulSeen c s → IsSized (body_on c s in_extents)
        → AreExtentEdits (body_on c s in_extents) (edits_on c s) }
{}

//! Laws of the edits of commands. Each is the contract of a function that does nothing.

ghost use Rattle.std.specs.Prelude.{◌^◌};
ghost use Rattle.r4_content.specs.Edited.{Pairs};
ghost use Rattle.r4_content.specs.Fields.{HasBytePaths};
ghost use Rattle.r4_content.specs.Seen.{Rises};
ghost use Rattle.r4_content.specs.declared.command.Command.{Command};
ghost use Rattle.r4_leaf_demands.specs.r4_leaf_edits.Suiting.{SuitLeaves};
ghost use Rattle.r4_leaf_demands.specs.r4_reach.Touched.{edits_on};
ghost use Rattle.r4_leaf_demands.specs.r4_suited.Suited.{AreLawfulSeen};

/// The bytes that a command sets, whose paths are of bytes, are bytes of bodies, where what was seen is lawful: so its
/// body may be asked for, also where that stands in extents afterwards (docs/volume.md, "Reach").
pub fn commands_set_bytes_of_bodies()
    ensures { (c : Command) (s : Pairs) → HasBytePaths c → Rises s → AreLawfulSeen c s
        → SuitLeaves (2 ^ 64) (edits_on c s) }
{}

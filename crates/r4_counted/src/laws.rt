//! The law of how many objects a command takes away. It is the contract of a function that does
//! nothing.

ghost use Rattle.std.specs.Prelude.{◌≤◌};
ghost use Rattle.r4_content.specs.Counts.{stats_in};
ghost use Rattle.r4_content.specs.Edited.{Pairs};
ghost use Rattle.r4_content.specs.Fields.{HasBytePaths};
ghost use Rattle.r4_content.specs.declared.command.Command.{Command};
ghost use Rattle.r4_suited.specs.r4_reach.Touched.{edits_on};
ghost use Rattle.r4_suited.specs.Suited.{AreLawfulSeen};

/// A command whose paths are of bytes takes at most one object away, where what was seen is lawful.
pub fn commands_take_one_object()
    ensures one { (c : Command) (s : Pairs) → HasBytePaths c → AreLawfulSeen c s
        → stats_in (edits_on c s).cuts ≤ 1 }
{}

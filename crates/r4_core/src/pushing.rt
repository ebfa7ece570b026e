//! A job that grows.

ghost use Rattle.std.specs.Prelude.{◌≡◌, ◌⊎◌, ◌≤◌, ◌<◌, ◌+◌, length, None, OnErr, OnOk};
ghost use Rattle.r4_content.specs.declared.command.Command.TheVariants as asks;
ghost use Rattle.r4_trace.specs.Job.{HasNoBegin, IsWork};
ghost use Rattle.r4_turns.specs.Turns.{IsScript, commands_at};
ghost use Rattle.r4_ready.specs.r4_kept.History.{owed, owed_for_commit};
ghost use Rattle.r4_ready.specs.r4_kept.Steps.{IsRoomier, pushed, with_room};

use crate::core_state::Core;
use r4_base::{Memory, ScriptNo};
use r4_content::Command;
use r4_outside::{Device, Run};
use std::alloc::{AllocError, Global};

impl<D: Device, R: Run> Core<D, R> {
    /// Adds a command, work or `commit`, at the end of a script, and makes room for its entry. The
    /// only error is want of memory; all is as before then but for that room.
    ///
    /// Conditions: the run names no text; the script has fewer than 2^32 - 1 commands, and no
    /// `begin` (docs/core.md, "A job that grows").
    pub fn push(&mut self, alloc: Global, script: ScriptNo, command: Command) -> Result<(), Memory>
        requires unnamed { R.scripts ≡ None }
        requires script { IsScript self.old.turns script.0 }
        requires few { length (commands_at self.old.turns script.0) < 4294967295 }
        requires plain { HasNoBegin (commands_at self.old.turns script.0) }
        requires command { IsWork command ⊎ (command ≡ asks.Commit) }
        ensures ok { OnOk result (self.new ≡ pushed self.old script.0 command) }
        ensures err { OnErr result (IsRoomier self.old self.new) }
    {
        self.more_room()?;
        self.turns.push(alloc, script, command)?;
        Ok(())
    }

    // There is room for one more entry.
    fn more_room(&mut self) -> Result<(), Memory>
        ensures ok { OnOk result (self.new ≡ with_room self.old (self.old.trace.spare + 1)) }
        ensures room { OnOk result (owed self.new.turns
            + owed_for_commit self.new.commit + 1 ≤ self.new.trace.spare) }
        ensures err { OnErr result (self.new ≡ self.old) }
    {
        let entries = self.trace.spare().checked_add(1).ok_or(AllocError)?;
        self.trace.room(entries)?;
        Ok(())
    }
}

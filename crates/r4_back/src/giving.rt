//! Tasks are given back.

ghost use Rattle.r4_back.specs.Backing.{GivesBack, Recalls, RecallsOf};
ghost use Rattle.r4_turns.specs.Turns.{IsScript, turn_at};
ghost use Rattle.std.specs.Prelude.{length};

use crate::finding::is_out;
use r4_base::ScriptNo;
use r4_matching::Task;
use r4_next::Core;
use r4_outside::{Device, Run};

/// A task is given back: its holds are dropped, and its command is again its script's next, with the
/// numbers that were drawn for it. A single command keeps its transaction. A task that is not out
/// changes nothing. No memory.
pub fn give_back<D: Device, R: Run>(core: &mut Core<D, R>, task: &Task)
    ensures { GivesBack core.old core.new task.now }
{
    if is_out(core, task) {
        core.take_back(task.script);
    }
}

/// Every task that is out is given back. No memory.
pub fn recall<D: Device, R: Run>(core: &mut Core<D, R>)
    ensures { Recalls core.old (length core.old.turns.turns) core.new }
{
    for at in 0..core.turns().count() {
        recall_of(core, ScriptNo(at + 1));
    }
}

// The task of a script is given back, if one is out.
fn recall_of<D: Device, R: Run>(core: &mut Core<D, R>, script: ScriptNo)
    requires { IsScript core.old.turns script.0 }
    ensures { RecallsOf core.old core.new script.0 (turn_at core.old.turns script.0).out }
{
    if core.turns().out(script).is_some() {
        core.take_back(script);
    }
}

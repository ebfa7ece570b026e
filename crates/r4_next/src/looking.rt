//! One script is looked at.

ghost use Rattle.std.specs.Prelude.{◌≡◌, ◌<◌, IfOk, None, OnErr, Some, length};
ghost use Rattle.std.specs.Option.{option_map};
ghost use Rattle.r4_content.specs.declared.command.Command.{Command as Asking};
ghost use Rattle.r4_content.specs.declared.command.Command.TheVariants as asks;
ghost use Rattle.r4_history.specs.Tables.{next_at};
ghost use Rattle.r4_next.specs.Following.{looked_as as looked_for, what_follows as kind_of};
ghost use Rattle.r4_next.specs.Taking.{IsLooked};
ghost use Rattle.r4_served.specs.Serving.{IsLeft};
ghost use Rattle.r4_served.specs.r4_take.Sending.{IsServable};
ghost use Rattle.r4_turns.specs.Turns.{IsScript, turn_at};

use crate::answering::{begin, end, leave, reopen};
use crate::committing::look_at_commit;
use crate::following::{Following, what_follows};
use crate::taken::{Looked, Taken};
use r4_base::{Memory, ScriptNo, TaskId};
use r4_history::Why;
use r4_outside::{Device, Run};
use r4_served::{Core, Served, serve};
use r4_turns::Turns;
use std::alloc::Global;

// A script is looked at, and served where it can be. The only error is want of memory, or of numbers
// for new cells.
pub(crate) fn look_at<D: Device, R: Run>(
    core: &mut Core<D, R>,
    alloc: Global,
    script: ScriptNo,
) -> Result<Looked, Memory>
    requires few { length core.old.atoms.txns < 4294967295 }
    requires script { IsScript core.old.turns script.0 }
    ensures ok { IfOk result (IsLooked D.state core.old core.new script) }
    ensures err { OnErr result
        (IsLeft (D.state core.old.dev) (D.state core.new.dev) core.old core.new) }
{
    core.lawful();
    if let Some(task) = task_of(core.turns(), script) {
        return Ok(Looked::Waits(Why::Out { task }));
    }
    let next = what_follows(core.turns().command(script));
    match core.broken() {
        Some(failed) => look_after_failure(core, alloc, script, next, failed),
        None => look_at_next(core, alloc, script, next),
    }
}

// The task of a script that is out, if one is.
fn task_of(turns: &Turns, script: ScriptNo) -> Option<TaskId>
    requires { IsScript turns.now script.0 }
    ensures { result ≡ option_map (λ out. out.task) (turn_at turns.now script.0).out }
{
    turns.out(script).map(|out| out.task)
}

// After a call of the device failed: each command is refused, and then the script is finished.
fn look_after_failure<D: Device, R: Run>(
    core: &mut Core<D, R>,
    alloc: Global,
    script: ScriptNo,
    next: Following,
    failed: u64,
) -> Result<Looked, Memory>
    requires failed { core.old.broken ≡ Some failed }
    requires script { IsScript core.old.turns script.0 }
    requires free { (turn_at core.old.turns script.0).out ≡ None }
    requires next { next ≡ kind_of (next_at core.old.turns script.0) }
    ensures ok { IfOk result (IsLooked D.state core.old core.new script) }
    ensures err { OnErr result
        (IsLeft (D.state core.old.dev) (D.state core.new.dev) core.old core.new) }
{
    core.turns().lawful();
    if let Following::Nothing = next {
        return Ok(Looked::Finished);
    }
    reopen(core, alloc, script, failed)?;
    Ok(Looked::Takes(Taken::Replied(script)))
}

// What comes next decides.
fn look_at_next<D: Device, R: Run>(
    core: &mut Core<D, R>,
    alloc: Global,
    script: ScriptNo,
    next: Following,
) -> Result<Looked, Memory>
    requires few { length core.old.atoms.txns < 4294967295 }
    requires sound { core.old.broken ≡ None }
    requires script { IsScript core.old.turns script.0 }
    requires free { (turn_at core.old.turns script.0).out ≡ None }
    requires next { next ≡ kind_of (next_at core.old.turns script.0) }
    ensures ok { IfOk result (IsLooked D.state core.old core.new script) }
    ensures err { OnErr result
        (IsLeft (D.state core.old.dev) (D.state core.new.dev) core.old core.new) }
{
    match next {
        Following::Nothing => look_at_end(core, alloc, script),
        Following::Begin => look_at_begin(core, alloc, script),
        Following::End => look_at_turn_end(core, alloc, script),
        Following::Commit => Ok(look_at_commit(core, script)),
        Following::Work => look_at_work(core, alloc, script),
    }
}

// Nothing else follows: the script is finished, or its transaction ends.
fn look_at_end<D: Device, R: Run>(
    core: &mut Core<D, R>,
    alloc: Global,
    script: ScriptNo,
) -> Result<Looked, Memory>
    requires sound { core.old.broken ≡ None }
    requires script { IsScript core.old.turns script.0 }
    requires free { (turn_at core.old.turns script.0).out ≡ None }
    requires next { next_at core.old.turns script.0 ≡ None }
    ensures ok { IfOk result (IsLooked D.state core.old core.new script) }
    ensures err { OnErr result
        (IsLeft (D.state core.old.dev) (D.state core.new.dev) core.old core.new) }
{
    core.lawful();
    core.turns().lawful();
    let Some(open) = core.turns().open(script) else {
        return Ok(Looked::Finished);
    };
    leave(core, alloc, script, open.txn)?;
    Ok(Looked::Takes(Taken::Replied(script)))
}

// A transaction begins.
fn look_at_begin<D: Device, R: Run>(
    core: &mut Core<D, R>,
    alloc: Global,
    script: ScriptNo,
) -> Result<Looked, Memory>
    requires few { length core.old.atoms.txns < 4294967295 }
    requires sound { core.old.broken ≡ None }
    requires script { IsScript core.old.turns script.0 }
    requires free { (turn_at core.old.turns script.0).out ≡ None }
    requires next { next_at core.old.turns script.0 ≡ Some asks.Begin }
    ensures ok { IfOk result (IsLooked D.state core.old core.new script) }
    ensures err { OnErr result
        (IsLeft (D.state core.old.dev) (D.state core.new.dev) core.old core.new) }
{
    core.lawful();
    begin(core, alloc, script)?;
    Ok(Looked::Takes(Taken::Replied(script)))
}

// A transaction ends by its `end`.
fn look_at_turn_end<D: Device, R: Run>(
    core: &mut Core<D, R>,
    alloc: Global,
    script: ScriptNo,
) -> Result<Looked, Memory>
    requires sound { core.old.broken ≡ None }
    requires script { IsScript core.old.turns script.0 }
    requires free { (turn_at core.old.turns script.0).out ≡ None }
    requires next { next_at core.old.turns script.0 ≡ Some asks.End }
    ensures ok { IfOk result (IsLooked D.state core.old core.new script) }
    ensures err { OnErr result
        (IsLeft (D.state core.old.dev) (D.state core.new.dev) core.old core.new) }
{
    core.lawful();
    let Some(open) = core.turns().open(script) else {
        unreachable!();
    };
    end(core, alloc, script, open.txn)?;
    Ok(Looked::Takes(Taken::Replied(script)))
}

// Work is served.
fn look_at_work<D: Device, R: Run>(
    core: &mut Core<D, R>,
    alloc: Global,
    script: ScriptNo,
) -> Result<Looked, Memory>
    requires few { length core.old.atoms.txns < 4294967295 }
    requires sound { core.old.broken ≡ None }
    requires servable { (x : Asking) × IsServable core.old script.0 x }
    ensures ok { IfOk result (IsLooked D.state core.old core.new script) }
    ensures err { OnErr result
        (IsLeft (D.state core.old.dev) (D.state core.new.dev) core.old core.new) }
{
    let served = serve(core, alloc, script)?;
    Ok(looked_as(script, served))
}

// What is found of a script whose next command was served so.
fn looked_as(script: ScriptNo, served: Served) -> Looked
    ensures { result ≡ looked_for script served }
{
    match served {
        Served::Refused => Looked::Takes(Taken::Replied(script)),
        Served::Waits { why } => Looked::Waits(why),
        Served::Out { task } => Looked::Takes(Taken::Work(task)),
    }
}

//! The command of a task that is out is done, or refused.

ghost use Rattle.std.specs.Prelude.{◌≡◌, IfErr, None, Ok, OnErr, OnOk};
ghost use Rattle.r4_apply.specs.Applying.{IsDoneIn, IsRightIn, IsWorked};
ghost use Rattle.r4_back.specs.Backing.{IsCompared};
ghost use Rattle.r4_back.specs.r4_core.Doing.{IsDoable, IsShort, naming};
ghost use Rattle.r4_back.specs.r4_history.Held.{IsOut};
ghost use Rattle.r4_turns.specs.declared.out.Out.{Out as Given};

use crate::making::{is_countable, let_go, made_of};
use r4_back::{Built, Core, Made, refuse_back};
use r4_base::{AtomNo, ScriptNo};
use r4_cell::on_disk_law;
use r4_content::Reply;
use r4_outside::{Device, Run};
use r4_space::Short;
use r4_turns::Open;
use std::alloc::Global;

// The command of the task is done in the open transaction of its script; or less is free than that
// takes, and it is refused.
pub(crate) fn work<D: Device, R: Run>(core: &mut Core<D, R>, alloc: Global, built: Built)
    requires sound { core.old.broken ≡ None }
    requires same { IsCompared core.old built.task (Ok tt) }
    ensures { (out : Given) → IsOut core.old.turns built.task.script.0 out
        → IsWorked core.old core.new built.task.script out built }
{
    core.lawful();
    core.atoms().lawful();
    let script = built.task().script;
    let Some(within) = core.turns().open(script) else {
        unreachable!();
    };
    let atom = core.atoms().atom(within.txn);
    built.task().command.lawful();
    on_disk_law();
    if !is_countable(core.trace()) {
        refuse_back(core, script, Reply::Memory);
        let_go(built);
        return;
    }
    let made = made_of(built);
    if let Err(short) = done_in(core, alloc, script, within, atom, made) {
        let Short { need, free } = short;
        refuse_back(core, script, Reply::Space { need, free });
    }
}

// It is done as a single command, whose transaction ends, or inside of one. The only error is want of
// free blocks, and all is as before then.
fn done_in<D: Device, R: Run>(
    core: &mut Core<D, R>,
    alloc: Global,
    script: ScriptNo,
    within: Open,
    atom: AtomNo,
    made: Made,
) -> Result<(), Short>
    requires can { IsDoable core.old script within made atom }
    requires right { IsRightIn (naming R.start R.clock R.scripts R.lender)
        (D.state core.old.dev) core.old script within.single within.txn made atom }
    ensures ok { OnOk result ((out : Given) → IsOut core.old.turns script.0 out
        → IsDoneIn core.old core.new script within.single within.txn made atom out) }
    ensures short { IfErr result (IsShort core.old made atom) }
    ensures err { OnErr result (core.new ≡ core.old) }
{
    if within.single {
        core.done_single(alloc, script, within.txn, atom, made)
    } else {
        core.done(alloc, script, within.txn, atom, made)
    }
}

//! Commands are refused whose tasks are out.

ghost use Rattle.std.specs.Prelude.{◌≡◌, None, Some, false};
ghost use Rattle.r4_back.specs.Backing.{IsRefusedBack, IsRefusedIn, RefusesMemory};
ghost use Rattle.r4_content.specs.declared.reply.Reply.TheVariants.{Memory};
ghost use Rattle.r4_next.specs.r4_history.Held.{IsOut};
ghost use Rattle.r4_next.specs.r4_history.Tables.{inside};
ghost use Rattle.r4_turns.specs.Turns.{turn_at};
ghost use Rattle.r4_turns.specs.declared.out.Out.{Out as Given};

use crate::finding::is_out;
use r4_base::{ScriptNo, TxnNo};
use r4_content::Reply;
use r4_matching::Task;
use r4_next::Core;
use r4_outside::{Device, Run};
use r4_turns::Open;

/// The command of a task is answered `memory`; a single command's transaction ends. After a call of
/// the device failed it is answered `reopen`. A task that is not out changes nothing. No memory.
pub fn refuse_memory<D: Device, R: Run>(core: &mut Core<D, R>, task: &Task)
    ensures { RefusesMemory core.old core.new task.now }
{
    if is_out(core, task) {
        refuse_back(core, task.script, Reply::Memory);
    }
}

/// The task of a script is given back, and its command is refused with this reply: as a single one,
/// whose transaction ends, or inside of the open transaction. After a call of the device failed it
/// is refused with `reopen`, in none. No memory.
pub fn refuse_back<D: Device, R: Run>(core: &mut Core<D, R>, script: ScriptNo, reply: Reply)
    requires { (out : Given) × IsOut core.old.turns script.0 out }
    ensures { (out : Given) → IsOut core.old.turns script.0 out
        → IsRefusedBack core.old core.new script out core.old.broken reply }
{
    match core.broken() {
        Some(failed) => reopen_back(core, script, failed),
        None => refuse_within(core, script, reply),
    }
}

// After a call of the device failed.
fn reopen_back<D: Device, R: Run>(core: &mut Core<D, R>, script: ScriptNo, failed: u64)
    requires failed { core.old.broken ≡ Some failed }
    requires out { (out : Given) × IsOut core.old.turns script.0 out }
    ensures { (out : Given) → IsOut core.old.turns script.0 out
        → IsRefusedBack core.old core.new script out (Some failed) Memory }
{
    core.lawful();
    core.take_back(script);
    core.reopen(script, failed);
}

// By its open transaction.
fn refuse_within<D: Device, R: Run>(core: &mut Core<D, R>, script: ScriptNo, reply: Reply)
    requires sound { core.old.broken ≡ None }
    requires out { (out : Given) × IsOut core.old.turns script.0 out }
    ensures { (out : Given) → IsOut core.old.turns script.0 out
        → IsRefusedBack core.old core.new script out None reply }
{
    core.lawful();
    match core.turns().open(script) {
        Some(Open { txn, single: true }) => core.refuse_out(script, txn, reply),
        Some(Open { txn, single: false }) => refuse_inside(core, script, txn, reply),
        None => unreachable!(),
    }
}

// Inside of a transaction that `begin` began.
fn refuse_inside<D: Device, R: Run>(
    core: &mut Core<D, R>,
    script: ScriptNo,
    txn: TxnNo,
    reply: Reply,
)
    requires sound { core.old.broken ≡ None }
    requires out { (out : Given) × IsOut core.old.turns script.0 out }
    requires own { (turn_at core.old.turns script.0).transaction ≡ Some (inside txn) }
    ensures { (out : Given) → IsOut core.old.turns script.0 out
        → IsRefusedIn core.old core.new script out false txn reply }
{
    core.lawful();
    core.take_back(script);
    core.refuse(script, txn, reply);
}

//! The next command of a script, work, is refused.

ghost use Rattle.std.specs.Prelude.{◌≡◌, ◌+◌, ◌≤◌, IfOk, None, OnErr};
ghost use Rattle.r4_content.specs.declared.command.Command.{Command};
ghost use Rattle.r4_take.specs.r4_kept.History.{owed, owed_for_commit};
ghost use Rattle.r4_served.specs.Serving.{IsRefused, refused_by};
ghost use Rattle.r4_served.specs.declared.serving.Served.TheVariants as served;
ghost use Rattle.r4_take.specs.r4_ready.Rooms.{HasMoreRoom};
ghost use Rattle.r4_take.specs.Sending.{IsServable};
ghost use Rattle.r4_turns.specs.Turns.{turn_at};

use crate::serving::Served;
use r4_base::{Memory, ScriptNo, TxnNo};
use r4_content::Reply;
use r4_outside::{Device, Run};
use r4_take::{Core, Wanted};
use r4_turns::Open;
use std::alloc::Global;

/// It is refused: inside of a transaction that `begin` began, or in none, or as a single command
/// whose transaction was begun, and ends then. The only error is want of memory for the entries; then
/// there may be more room, and all else is as it was.
pub fn refuse<D: Device, R: Run>(
    core: &mut Core<D, R>,
    alloc: Global,
    script: ScriptNo,
    reply: Reply,
) -> Result<Served, Memory>
    requires sound { core.old.broken ≡ None }
    requires servable { (x : Command) × IsServable core.old script.0 x }
    ensures ok { IfOk result (λ a. (a ≡ served.Refused) × IsRefused core.old core.new script reply) }
    ensures err { OnErr result (HasMoreRoom core.old core.new) }
{
    core.make_room(
        alloc,
        Wanted {
            entries: 2,
            cells: 0,
            met: 0,
            claims: 0,
        },
    )?;
    refuse_now(core, script, reply);
    Ok(Served::Refused)
}

// By the open transaction of its script. There is room for two entries.
fn refuse_now<D: Device, R: Run>(core: &mut Core<D, R>, script: ScriptNo, reply: Reply)
    requires sound { core.old.broken ≡ None }
    requires servable { (x : Command) × IsServable core.old script.0 x }
    requires room { owed core.old.turns + owed_for_commit core.old.commit + 2
        ≤ core.old.trace.spare }
    ensures { core.new ≡ refused_by core.old script
        (turn_at core.old.turns script.0).transaction reply }
{
    match core.turns().open(script) {
        None => core.refuse(script, TxnNo(0), reply),
        Some(Open { txn, single: false }) => core.refuse(script, txn, reply),
        Some(Open { txn, single: true }) => core.refuse_single(script, txn, reply),
    }
}

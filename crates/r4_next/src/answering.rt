//! What comes next in a script is answered, where it is no work.

ghost use Rattle.std.specs.Prelude.{◌≡◌, ◌+◌, ◌<◌, IfOk, IsSome, None, OnErr, OnOk, Some, length};
ghost use Rattle.r4_content.specs.declared.command.Command.TheVariants as asks;
ghost use Rattle.r4_content.specs.declared.reply.Reply.TheVariants.{Reopen};
ghost use Rattle.r4_history.specs.Tables.{IsLastOf, Stands, inside, next_at};
ghost use Rattle.r4_served.specs.r4_kept.Steps.{HasBegun, answered, ended, ended_last};
ghost use Rattle.r4_next.specs.Taking.{InRoom};
ghost use Rattle.r4_served.specs.r4_ready.Rooms.{HasMoreRoom};
ghost use Rattle.r4_history.specs.r4_trace.declared.entry.Entry.TheVariants.{Refused};
ghost use Rattle.r4_turns.specs.Turns.{IsScript, answered_at, turn_at};

use r4_atoms::Atoms;
use r4_base::{Memory, ScriptNo, TxnNo};
use r4_outside::{Device, Run};
use r4_served::{Core, Wanted};
use std::alloc::Global;

// For one entry. There is room for one more transaction then, too.
const ONE_ENTRY: Wanted = Wanted {
    entries: 1,
    cells: 0,
    met: 0,
    claims: 0,
};

// The transaction of a script ends since nothing else follows. The only error is want of memory.
pub(crate) fn leave<D: Device, R: Run>(
    core: &mut Core<D, R>,
    alloc: Global,
    script: ScriptNo,
    txn: TxnNo,
) -> Result<(), Memory>
    requires sound { core.old.broken ≡ None }
    requires stands { Stands core.old.turns script.0 (Some (inside txn)) None }
    ensures ok { OnOk result
        (InRoom core.old (λ roomy. core.new ≡ ended_last roomy script.0 txn)) }
    ensures err { OnErr result (HasMoreRoom core.old core.new) }
{
    core.make_room(alloc, ONE_ENTRY)?;
    core.leave(script, txn);
    Ok(())
}

// It ends by the `end` that comes next. The only error is want of memory.
pub(crate) fn end<D: Device, R: Run>(
    core: &mut Core<D, R>,
    alloc: Global,
    script: ScriptNo,
    txn: TxnNo,
) -> Result<(), Memory>
    requires sound { core.old.broken ≡ None }
    requires stands { Stands core.old.turns script.0 (Some (inside txn)) (Some asks.End) }
    ensures ok { OnOk result (InRoom core.old (λ roomy. core.new ≡ ended roomy script.0 txn)) }
    ensures err { OnErr result (HasMoreRoom core.old core.new) }
{
    core.make_room(alloc, ONE_ENTRY)?;
    core.end(script, txn);
    Ok(())
}

// A transaction begins by the `begin` that comes next. The only error is want of memory.
pub(crate) fn begin<D: Device, R: Run>(
    core: &mut Core<D, R>,
    alloc: Global,
    script: ScriptNo,
) -> Result<TxnNo, Memory>
    requires sound { core.old.broken ≡ None }
    requires few { length core.old.atoms.txns < 4294967295 }
    requires stands { Stands core.old.turns script.0 None (Some asks.Begin) }
    ensures ok { IfOk result
        (λ txn. InRoom core.old (λ roomy. HasBegun roomy core.new script txn)) }
    ensures err { OnErr result (HasMoreRoom core.old core.new) }
{
    core.make_room(alloc, ONE_ENTRY)?;
    let txn = core.begin(alloc, script)?;
    Ok(txn)
}

// After a call of the device failed the next command is refused. The only error is want of memory.
pub(crate) fn reopen<D: Device, R: Run>(
    core: &mut Core<D, R>,
    alloc: Global,
    script: ScriptNo,
    failed: u64,
) -> Result<(), Memory>
    requires failed { core.old.broken ≡ Some failed }
    requires script { IsScript core.old.turns script.0 }
    requires next { IsSome (next_at core.old.turns script.0) }
    requires free { (turn_at core.old.turns script.0).out ≡ None }
    ensures ok { OnOk result (InRoom core.old (λ roomy. core.new ≡ answered roomy script.0
        (Refused (record { 0 = 0 }) script (answered_at roomy.turns script.0 + 1)
        (Reopen failed)))) }
    ensures err { OnErr result (HasMoreRoom core.old core.new) }
{
    core.make_room(alloc, ONE_ENTRY)?;
    core.reopen(script, failed);
    Ok(())
}

// The transaction that a script began last, or 0 where it has begun none.
pub(crate) fn last_of(atoms: &Atoms, script: ScriptNo) -> TxnNo
    ensures { IsLastOf atoms.now script.0 result.0 }
{
    let mut at = atoms.begun();
    while at > 0 {
        if atoms.script(TxnNo(at)) == script {
            break;
        }
        at -= 1;
    }
    TxnNo(at)
}

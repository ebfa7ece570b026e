//! Commands are answered that change no cell.

ghost use Rattle.std.specs.Prelude.{◌≡◌, ◌+◌, ◌≤◌, IsSome, None, Some};
ghost use Rattle.r4_atoms.specs.Atoms.{AllCommitted};
ghost use Rattle.r4_content.specs.declared.command.Command.TheVariants as asks;
ghost use Rattle.r4_content.specs.declared.reply.Reply.TheVariants.{Reopen};
ghost use Rattle.r4_others.specs.r4_history.Tables.{IsLastOf, Stands, next_at};
ghost use Rattle.r4_trace.specs.declared.entry.Entry.TheVariants.{Acked, Refused};
ghost use Rattle.r4_turns.specs.Turns.{IsScript, answered_at, answered_one, turn_at};
ghost use Rattle.r4_ready.specs.r4_kept.History.{owed, owed_for_commit};
ghost use Rattle.r4_ready.specs.r4_kept.Steps.{IsRefusable, answered};
ghost use Rattle.r4_ready.specs.r4_taking.Refusing.{StandsSingle, refused_single};

use crate::core_state::Core;
use r4_base::{ScriptNo, TxnNo};
use r4_content::Reply;
use r4_outside::{Device, Run};
use r4_trace::Entry;

impl<D: Device, R: Run> Core<D, R> {
    /// A `commit` is acknowledged, once each transaction of its script is in a committed atom. There
    /// is room for its entry.
    pub fn acknowledge(&mut self, script: ScriptNo, txn: TxnNo)
        requires sound { self.old.broken ≡ None }
        requires stands { Stands self.old.turns script.0 None (Some asks.Commit) }
        requires last { IsLastOf self.old.atoms script.0 txn.0 }
        requires committed { AllCommitted self.old.atoms script.0 }
        ensures { self.new ≡ answered self.old script.0
            (Acked script txn (D.state self.old.dev).clock) }
    {
        let clock = self.dev.clock();
        self.turns.answer(script);
        self.trace.push(Entry::Acked { script, txn, clock });
    }

    /// The next command of a script is refused: work, in the transaction that `begin` began or in
    /// none, or `commit`. A refused `commit` has its room.
    pub fn refuse(&mut self, script: ScriptNo, txn: TxnNo, reply: Reply)
        requires sound { self.old.broken ≡ None }
        requires refusable { IsRefusable self.old.turns script.0 txn }
        requires room { owed (answered_one self.old.turns script.0)
            + owed_for_commit self.old.commit + 1 ≤ self.old.trace.spare }
        ensures { self.new ≡ answered self.old script.0
            (Refused txn script (answered_at self.old.turns script.0 + 1) reply) }
    {
        self.turns.answer(script);
        let index = self.turns.answered(script);
        self.trace.push(Entry::Refused {
            txn,
            script,
            index,
            reply,
        });
    }

    /// A single command is refused, and the transaction that was begun for it ends: two entries as
    /// one step, since no other may come between.
    pub fn refuse_single(&mut self, script: ScriptNo, txn: TxnNo, reply: Reply)
        requires sound { self.old.broken ≡ None }
        requires stands { StandsSingle self.old.turns script.0 txn }
        requires room { owed self.old.turns + owed_for_commit self.old.commit + 2
            ≤ self.old.trace.spare }
        ensures { self.new ≡ refused_single self.old script txn reply }
    {
        self.turns.answer(script);
        let index = self.turns.answered(script);
        self.turns.leave(script);
        self.atoms.close(txn);
        self.trace.push(Entry::Refused {
            txn,
            script,
            index,
            reply,
        });
        self.trace.push(Entry::Ended { txn });
    }

    /// After a call of the device failed, the next command of a script is refused, in no
    /// transaction.
    pub fn reopen(&mut self, script: ScriptNo, failed: u64)
        requires failed { self.old.broken ≡ Some failed }
        requires script { IsScript self.old.turns script.0 }
        requires next { IsSome (next_at self.old.turns script.0) }
        requires free { (turn_at self.old.turns script.0).out ≡ None }
        requires room { owed (answered_one self.old.turns script.0)
            + owed_for_commit self.old.commit + 1 ≤ self.old.trace.spare }
        ensures { self.new ≡ answered self.old script.0
            (Refused (record { 0 = 0 }) script (answered_at self.old.turns script.0 + 1)
            (Reopen failed)) }
    {
        self.turns.answer(script);
        let index = self.turns.answered(script);
        self.trace.push(Entry::Refused {
            txn: TxnNo(0),
            script,
            index,
            reply: Reply::Reopen { clock: failed },
        });
    }
}

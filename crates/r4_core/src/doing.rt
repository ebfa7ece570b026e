//! Commands are done whose tasks are out.

ghost use Rattle.std.specs.Prelude.{◌≡◌, IfErr, IfOk, OnErr, OnOk};
ghost use Rattle.r4_base.specs.declared.things.ScriptNo.{ScriptNo};
ghost use Rattle.r4_core.specs.Doing.{CanPay, IsDoable, IsDone, IsDoneSingle, IsRightDone};
ghost use Rattle.r4_core.specs.Doing.{IsRightSingle, IsShort, naming};
ghost use Rattle.r4_others.specs.r4_history.Held.{IsOut};
ghost use Rattle.r4_others.specs.r4_history.Tables.{inside, single};
ghost use Rattle.r4_turns.specs.declared.out.Out.{Out};
ghost use Rattle.r4_turns.specs.declared.turn.Open.{Open};

use crate::core_state::Core;
use r4_atoms::Account;
use r4_base::{AtomNo, ScriptNo, TxnNo};
use r4_cell::{Cell, Cells, Root};
use r4_content::{Command, Reply};
use r4_flushing::{account_after, afford, levels_law, put_change};
use r4_outside::{Device, Run};
use r4_ready::ObjectCounts;
use r4_space::Short;
use r4_trace::Entry;
use std::alloc::Global;
use std::sync::Arc;

/// What was made of a task: its command, with the id that was drawn for it, and the reply; the
/// cells that are replaced, those that take their place, and the new root, where there is one; and
/// how many objects come and go.
#[derive(Drop)]
pub struct Made {
    pub command: Command,
    pub reply: Reply,
    pub old: Cells,
    pub new: Vec<Arc<Cell>>,
    pub root: Option<Root>,
    pub objects: ObjectCounts,
}

impl<D: Device, R: Run> Core<D, R> {
    // What the account of an atom is once the change of one of its tasks is made, if as much is
    // free as that takes. No memory.
    fn account_with(&self, atom: AtomNo, made: &Made) -> Result<Account, Short>
        requires { (s : ScriptNo) × (within : Open) × IsDoable self.now s within made.now atom }
        ensures ok { IfOk result (CanPay self.now made.now atom) }
        ensures short { IfErr result (IsShort self.now made.now atom) }
    {
        self.space.lawful();
        let _ = self.trace.len();
        let before = self.atoms.account(atom);
        let after = account_after(
            &self.buffer,
            before,
            made.old.as_slice(),
            made.new.as_slice(),
            made.objects.born,
            made.objects.gone,
        );
        let blocks = self.volume.super40.block_count;
        afford(&self.space, blocks, atom, &before, &after)?;
        Ok(after)
    }

    /// The command of a script whose task is out is done by what was made of it, inside of a
    /// transaction. The only error is want of free blocks, and all is as before then. No memory.
    pub fn done(
        &mut self,
        alloc: Global,
        script: ScriptNo,
        txn: TxnNo,
        atom: AtomNo,
        made: Made,
    ) -> Result<(), Short>
        requires can { IsDoable self.old script (inside txn) made atom }
        requires right { IsRightDone (naming R.start R.clock R.scripts R.lender)
            (D.state self.old.dev) self.old script txn made atom }
        ensures ok { OnOk result ((out : Out) → IsOut self.old.turns script.0 out
            → IsDone self.old self.new script txn made atom out) }
        ensures short { IfErr result (IsShort self.old made atom) }
        ensures err { OnErr result (self.new ≡ self.old) }
    {
        let account = self.account_with(atom, &made)?;
        levels_law(made.new.as_slice());
        let new = made.new;
        put_change(
            &mut self.space,
            &mut self.atoms,
            &mut self.buffer,
            alloc,
            atom,
            account,
            made.old.as_slice(),
            new,
        );
        self.space.lawful();
        let out = self.turns.drop_out(script);
        self.locks.release(out.task);
        self.buffer.unuse(out.pins.as_slice());
        self.tree = made.root.unwrap_or(self.tree);
        self.turns.answer(script);
        let index = self.turns.answered(script);
        self.trace.push(Entry::Done {
            txn,
            script,
            index,
            command: made.command,
            reply: made.reply,
        });
        Ok(())
    }

    /// A single command whose task is out is done, and its transaction ends: two entries as one
    /// step, since no other may come between. The only error is want of free blocks, and all is as
    /// before then. No memory.
    pub fn done_single(
        &mut self,
        alloc: Global,
        script: ScriptNo,
        txn: TxnNo,
        atom: AtomNo,
        made: Made,
    ) -> Result<(), Short>
        requires can { IsDoable self.old script (single txn) made atom }
        requires right { IsRightSingle (naming R.start R.clock R.scripts R.lender)
            (D.state self.old.dev) self.old script txn made atom }
        ensures ok { OnOk result ((out : Out) → IsOut self.old.turns script.0 out
            → IsDoneSingle self.old self.new script txn made atom out) }
        ensures short { IfErr result (IsShort self.old made atom) }
        ensures err { OnErr result (self.new ≡ self.old) }
    {
        let account = self.account_with(atom, &made)?;
        levels_law(made.new.as_slice());
        let new = made.new;
        put_change(
            &mut self.space,
            &mut self.atoms,
            &mut self.buffer,
            alloc,
            atom,
            account,
            made.old.as_slice(),
            new,
        );
        self.space.lawful();
        let out = self.turns.drop_out(script);
        self.locks.release(out.task);
        self.buffer.unuse(out.pins.as_slice());
        self.tree = made.root.unwrap_or(self.tree);
        self.turns.answer(script);
        let index = self.turns.answered(script);
        self.turns.leave(script);
        self.atoms.close(txn);
        self.trace.push(Entry::Done {
            txn,
            script,
            index,
            command: made.command,
            reply: made.reply,
        });
        self.trace.push(Entry::Ended { txn });
        Ok(())
    }
}

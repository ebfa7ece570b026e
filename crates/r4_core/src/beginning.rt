//! Transactions begin.

ghost use Rattle.std.specs.Prelude.{◌≡◌, ◌+◌, ◌<◌, ◌≤◌, length, IfOk, IsOk, None, OnErr, Some};
ghost use Rattle.r4_content.specs.declared.command.Command.TheVariants as asks;
ghost use Rattle.r4_others.specs.r4_history.Tables.{Stands};
ghost use Rattle.r4_ready.specs.r4_kept.History.{owed, owed_for_commit};
ghost use Rattle.r4_ready.specs.r4_kept.Steps.{HasBegun, HasBegunSingle, StandsAlone};

use crate::core_state::Core;
use r4_base::{Memory, ScriptNo, TxnNo};
use r4_outside::{Device, Run};
use r4_trace::Entry;
use std::alloc::Global;

impl<D: Device, R: Run> Core<D, R> {
    /// A transaction begins by the `begin` that is the next command of a script. The only error is
    /// want of memory, and all is as before then.
    pub fn begin(&mut self, alloc: Global, script: ScriptNo) -> Result<TxnNo, Memory>
        requires sound { self.old.broken ≡ None }
        requires stands { Stands self.old.turns script.0 None (Some asks.Begin) }
        requires few { length self.old.atoms.txns < 4294967295 }
        requires room { owed self.old.turns + owed_for_commit self.old.commit + 1
            ≤ self.old.trace.spare }
        ensures ok { IfOk result (λ txn. HasBegun self.old self.new script txn) }
        ensures err { OnErr result (self.new ≡ self.old) }
    {
        self.atoms.lawful();
        let txn = self.atoms.begin(alloc, script)?;
        self.turns.enter(script, txn, false);
        self.turns.answer(script);
        self.trace.push(Entry::Begin { txn, script });
        Ok(txn)
    }

    /// A single command, work outside of transactions, gets a transaction of its own. The command is
    /// still the next one: it is answered later. The only error is want of memory, and all is as
    /// before then.
    pub fn begin_single(&mut self, alloc: Global, script: ScriptNo) -> Result<TxnNo, Memory>
        requires sound { self.old.broken ≡ None }
        requires alone { StandsAlone self.old.turns script.0 }
        requires few { length self.old.atoms.txns < 4294967295 }
        requires room { owed self.old.turns + owed_for_commit self.old.commit + 1
            ≤ self.old.trace.spare }
        ensures ok { IfOk result (λ txn. HasBegunSingle self.old self.new script txn) }
        ensures enough { 1 ≤ self.old.atoms.txn_spare → IsOk result }
        ensures err { OnErr result (self.new ≡ self.old) }
    {
        self.atoms.lawful();
        let txn = self.atoms.begin(alloc, script)?;
        self.turns.enter(script, txn, true);
        self.trace.push(Entry::Begin { txn, script });
        Ok(txn)
    }
}

//! Transactions end.

ghost use Rattle.std.specs.Prelude.{◌≡◌, ◌+◌, ◌≤◌, Some, None};
ghost use Rattle.r4_content.specs.declared.command.Command.TheVariants as asks;
ghost use Rattle.r4_others.specs.r4_history.Tables.{Stands, inside};
ghost use Rattle.r4_ready.specs.r4_kept.History.{owed, owed_for_commit};
ghost use Rattle.r4_ready.specs.r4_kept.Steps.{ended};

use crate::core_state::Core;
use r4_base::{ScriptNo, TxnNo};
use r4_outside::{Device, Run};
use r4_trace::Entry;

impl<D: Device, R: Run> Core<D, R> {
    /// The transaction of a script ends by the `end` that is its next command.
    pub fn end(&mut self, script: ScriptNo, txn: TxnNo)
        requires sound { self.old.broken ≡ None }
        requires stands { Stands self.old.turns script.0 (Some (inside txn)) (Some asks.End) }
        requires room { owed self.old.turns + owed_for_commit self.old.commit + 1
            ≤ self.old.trace.spare }
        ensures { self.new ≡ ended self.old script.0 txn }
    {
        self.atoms.close(txn);
        self.turns.leave(script);
        self.turns.answer(script);
        self.trace.push(Entry::Ended { txn });
    }
}

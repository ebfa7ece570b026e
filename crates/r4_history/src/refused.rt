//! Laws of what no step may write.

ghost use Rattle.std.specs.Prelude.{◌≡◌, ◌∷◌, ℕ, List, Option, Some, false};
ghost use Rattle.r4_atoms.specs.Atoms.{IsBegun, IsOpenIn, atom_of, is_committed, txn_of};
ghost use Rattle.r4_base.specs.declared.things.AtomNo.{AtomNo};
ghost use Rattle.r4_base.specs.declared.things.ScriptNo.{ScriptNo};
ghost use Rattle.r4_base.specs.declared.things.TxnNo.{TxnNo};
ghost use Rattle.r4_content.specs.Locality.{Meaning};
ghost use Rattle.r4_content.specs.declared.command.Command.{Command};
ghost use Rattle.r4_content.specs.declared.reply.Reply.{Reply};
ghost use Rattle.r4_trace.specs.Ids.{Start};
ghost use Rattle.r4_trace.specs.Job.{Asked};
ghost use Rattle.r4_trace.specs.Legal.{IsLegalSoFar};
ghost use Rattle.r4_trace.specs.Order.{Reopens};
ghost use Rattle.r4_trace.specs.declared.entry.Entry.{Entry};
ghost use Rattle.r4_trace.specs.declared.entry.Entry.TheVariants.{Acked, Sealed};
ghost use Rattle.r4_history.specs.Tables.{Tables};
ghost use Rattle.r4_history.specs.Told.{IsTold};

/// An atom with an open transaction is not sealed, whatever the job is.
pub fn open_atoms_are_not_sealed()
    ensures { (w : Meaning Command Reply) (start : Option Start) (clock : ℕ) (t : Tables)
        (trace : List Entry) → IsTold w start clock t trace
        → (job : Option Asked) (atom : AtomNo) (txn : ℕ) → IsOpenIn t.atoms atom.0 txn
        → IsLegalSoFar w start job (Sealed atom ∷ trace) → ⊥ }
{}

/// A script is not acknowledged as long as a transaction of it is in an atom that is not committed.
pub fn early_commits_are_not_acknowledged()
    ensures { (w : Meaning Command Reply) (start : Option Start) (clock : ℕ) (t : Tables)
        (trace : List Entry) → IsTold w start clock t trace
        → (job : Option Asked) (script : ScriptNo) (txn : TxnNo) (now n : ℕ) → IsBegun t.atoms n
        → (txn_of t.atoms n).script ≡ script.0
        → is_committed t.atoms (atom_of t.atoms n) ≡ false
        → IsLegalSoFar w start job (Acked script txn now ∷ trace) → ⊥ }
{}

/// After a failed call of the device whatever is written is a refusal in no transaction, with the
/// reply `reopen` and the clock of that call.
pub fn failed_runs_answer_reopen()
    ensures { (w : Meaning Command Reply) (start : Option Start) (clock : ℕ) (t : Tables)
        (trace : List Entry) → IsTold w start clock t trace
        → (job : Option Asked) (failed : ℕ) (e : Entry) → t.broken ≡ Some failed
        → IsLegalSoFar w start job (e ∷ trace) → Reopens failed e }
{}

//! Laws of transactions: where one begins or ends, tables and trace go on alike.

ghost use Rattle.std.specs.Prelude.{◌≡◌, ◌+◌, ◌∷◌, ℕ, List, Option, Some, None, length};
ghost use Rattle.r4_atoms.specs.Atoms.{AtomsSeen};
ghost use Rattle.r4_base.specs.declared.things.ScriptNo.{ScriptNo};
ghost use Rattle.r4_base.specs.declared.things.TxnNo.{TxnNo};
ghost use Rattle.r4_content.specs.Locality.{Meaning};
ghost use Rattle.r4_content.specs.declared.command.Command.{Command};
ghost use Rattle.r4_content.specs.declared.command.Command.TheVariants as commands;
ghost use Rattle.r4_content.specs.declared.reply.Reply.{Reply};
ghost use Rattle.r4_trace.specs.Ids.{Start};
ghost use Rattle.r4_trace.specs.Job.{IsWork};
ghost use Rattle.r4_trace.specs.declared.entry.Entry.{Entry};
ghost use Rattle.r4_trace.specs.declared.entry.Entry.TheVariants.{Begin, Ended};
ghost use Rattle.r4_history.specs.Tables.{Begins, Stands, Tables, inside, single, with_begin, with_end};
ghost use Rattle.r4_history.specs.Tables.{with_nothing_left, with_single};
ghost use Rattle.r4_history.specs.Told.{IsTold};

/// A transaction begins by `begin`, which it answers, or for a single command. It has the next
/// number, and a script has one at a time.
pub fn transactions_begin()
    ensures begin { (w : Meaning Command Reply) (start : Option Start) (clock : ℕ) (t : Tables)
        (trace : List Entry) → IsTold w start clock t trace
        → (txn : TxnNo) (script : ScriptNo) (atoms : AtomsSeen) → t.broken ≡ None
        → Stands t.turns script.0 None (Some commands.Begin)
        → Begins t.atoms atoms script.0 → txn.0 ≡ length t.atoms.txns + 1
        → IsTold w start clock (with_begin t script.0 txn atoms)
        (Begin txn script ∷ trace) }
    ensures single { (w : Meaning Command Reply) (start : Option Start) (clock : ℕ) (t : Tables)
        (trace : List Entry) → IsTold w start clock t trace
        → (txn : TxnNo) (script : ScriptNo) (c : Command) (atoms : AtomsSeen) → t.broken ≡ None
        → Stands t.turns script.0 None (Some c) → IsWork c
        → Begins t.atoms atoms script.0 → txn.0 ≡ length t.atoms.txns + 1
        → IsTold w start clock (with_single t script.0 txn atoms)
        (Begin txn script ∷ trace) }
{}

/// A transaction that `begin` began ends by `end`, which it answers, or where its script has no
/// further command.
pub fn transactions_end()
    ensures end { (w : Meaning Command Reply) (start : Option Start) (clock : ℕ) (t : Tables)
        (trace : List Entry) → IsTold w start clock t trace
        → (txn : TxnNo) (script : ScriptNo) → t.broken ≡ None
        → Stands t.turns script.0 (Some (inside txn)) (Some commands.End)
        → IsTold w start clock (with_end t script.0 txn.0)
        (Ended txn ∷ trace) }
    ensures last { (w : Meaning Command Reply) (start : Option Start) (clock : ℕ) (t : Tables)
        (trace : List Entry) → IsTold w start clock t trace
        → (txn : TxnNo) (script : ScriptNo) → t.broken ≡ None
        → Stands t.turns script.0 (Some (inside txn)) None
        → IsTold w start clock (with_nothing_left t script.0 txn.0)
        (Ended txn ∷ trace) }
{}

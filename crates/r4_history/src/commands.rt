//! Laws of answers: where a command is answered, tables and trace go on alike.

ghost use Rattle.std.specs.Prelude.{◌≡◌, ◌+◌, ◌∷◌, ℕ, List, Option, Some, None};
ghost use Rattle.r4_atoms.specs.Atoms.{AllCommitted};
ghost use Rattle.r4_base.specs.declared.things.Oid.{Oid};
ghost use Rattle.r4_base.specs.declared.things.ScriptNo.{ScriptNo};
ghost use Rattle.r4_base.specs.declared.things.TxnNo.{TxnNo};
ghost use Rattle.r4_content.specs.Locality.{Meaning};
ghost use Rattle.r4_content.specs.Meaning.{with_id};
ghost use Rattle.r4_content.specs.declared.command.Command.{Command};
ghost use Rattle.r4_content.specs.declared.command.Command.TheVariants as commands;
ghost use Rattle.r4_content.specs.declared.reply.Reply.{Reply};
ghost use Rattle.r4_content.specs.declared.reply.Reply.TheVariants.{Reopen};
ghost use Rattle.r4_trace.specs.Ids.{Start};
ghost use Rattle.r4_trace.specs.Job.{IsWork};
ghost use Rattle.r4_trace.specs.declared.entry.Entry.{Entry};
ghost use Rattle.r4_trace.specs.declared.entry.Entry.TheVariants.{Acked, Done, Ended, Refused};
ghost use Rattle.r4_turns.specs.declared.turn.Open.{Open};
ghost use Rattle.r4_history.specs.Tables.{IsLastOf, IsNextCommand, Stands, Tables, inside, single, with_answer};
ghost use Rattle.r4_history.specs.Tables.{with_last_answer};
ghost use Rattle.r4_history.specs.Told.{HasNewId, HasReply, IsTold};
ghost use Rattle.r4_history.specs.Tables.{asked};

/// A command that reads or changes the volume is done in the transaction of its script, with its
/// reply after all that was done before and a new id. That of a single command ends behind it.
pub fn commands_are_done()
    ensures inside { (w : Meaning Command Reply) (start : Option Start) (clock : ℕ) (t : Tables)
        (trace : List Entry) → IsTold w start clock t trace
        → (txn : TxnNo) (script : ScriptNo) (i : ℕ) (c had : Command) (id : Oid) (r : Reply)
        → t.broken ≡ None → IsNextCommand t.turns script.0 (Some (inside txn)) i had → IsWork had
        → c ≡ with_id id had → HasReply w start trace c r
        → HasNewId start (asked t.turns.job) trace c
        → IsTold w start clock (with_answer t script.0) (Done txn script i c r ∷ trace) }
    ensures single { (w : Meaning Command Reply) (start : Option Start) (clock : ℕ) (t : Tables)
        (trace : List Entry) → IsTold w start clock t trace
        → (txn : TxnNo) (script : ScriptNo) (i : ℕ) (c had : Command) (id : Oid) (r : Reply)
        → t.broken ≡ None → IsNextCommand t.turns script.0 (Some (single txn)) i had → IsWork had
        → c ≡ with_id id had → HasReply w start trace c r
        → HasNewId start (asked t.turns.job) trace c
        → IsTold w start clock (with_last_answer t script.0 txn.0)
        (Ended txn ∷ Done txn script i c r ∷ trace) }
{}

/// A command is refused in the transaction of its script, or in none: a single command before its
/// Begin, and `commit`. That of a single command ends behind it. After a failed call of the device
/// each command is refused in none, and what is open stays so.
pub fn commands_are_refused()
    ensures outside { (w : Meaning Command Reply) (start : Option Start) (clock : ℕ) (t : Tables)
        (trace : List Entry) → IsTold w start clock t trace
        → (txn : TxnNo) (script : ScriptNo) (i : ℕ) (c : Command) (r : Reply) → t.broken ≡ None
        → IsNextCommand t.turns script.0 None i c → IsWork c → txn.0 ≡ 0
        → IsTold w start clock (with_answer t script.0) (Refused txn script i r ∷ trace) }
    ensures commit { (w : Meaning Command Reply) (start : Option Start) (clock : ℕ) (t : Tables)
        (trace : List Entry) → IsTold w start clock t trace
        → (txn : TxnNo) (script : ScriptNo) (i : ℕ) (r : Reply) → t.broken ≡ None
        → IsNextCommand t.turns script.0 None i commands.Commit → txn.0 ≡ 0
        → IsTold w start clock (with_answer t script.0) (Refused txn script i r ∷ trace) }
    ensures inside { (w : Meaning Command Reply) (start : Option Start) (clock : ℕ) (t : Tables)
        (trace : List Entry) → IsTold w start clock t trace
        → (txn : TxnNo) (script : ScriptNo) (i : ℕ) (c : Command) (r : Reply) → t.broken ≡ None
        → IsNextCommand t.turns script.0 (Some (inside txn)) i c → IsWork c
        → IsTold w start clock (with_answer t script.0) (Refused txn script i r ∷ trace) }
    ensures single { (w : Meaning Command Reply) (start : Option Start) (clock : ℕ) (t : Tables)
        (trace : List Entry) → IsTold w start clock t trace
        → (txn : TxnNo) (script : ScriptNo) (i : ℕ) (c : Command) (r : Reply) → t.broken ≡ None
        → IsNextCommand t.turns script.0 (Some (single txn)) i c → IsWork c
        → IsTold w start clock (with_last_answer t script.0 txn.0)
        (Ended txn ∷ Refused txn script i r ∷ trace) }
    ensures reopen { (w : Meaning Command Reply) (start : Option Start) (clock : ℕ) (t : Tables)
        (trace : List Entry) → IsTold w start clock t trace
        → (txn : TxnNo) (script : ScriptNo) (i : ℕ) (c : Command) (o : Option Open) (failed : ℕ)
        → t.broken ≡ Some failed → IsNextCommand t.turns script.0 o i c → txn.0 ≡ 0
        → IsTold w start clock (with_answer t script.0)
        (Refused txn script i (Reopen failed) ∷ trace) }
{}

/// A `commit` is acknowledged where each transaction of its script is in a committed atom. It names
/// the last one, or 0 where the script has begun none.
pub fn commits_are_acknowledged()
    ensures { (w : Meaning Command Reply) (start : Option Start) (clock : ℕ) (t : Tables)
        (trace : List Entry) → IsTold w start clock t trace
        → (script : ScriptNo) (txn : TxnNo) → t.broken ≡ None
        → Stands t.turns script.0 None (Some commands.Commit) → IsLastOf t.atoms script.0 txn.0
        → AllCommitted t.atoms script.0
        → IsTold w start clock (with_answer t script.0) (Acked script txn clock ∷ trace) }
{}

//! Laws of waiting.

ghost use Rattle.std.specs.Prelude.{◌≡◌, ◌⊎◌, ℕ, List, length, Option, None};
ghost use Rattle.r4_atoms.specs.Atoms.{AllCommitted, IsClosedAtom, IsUncommittedOf};
ghost use Rattle.r4_atoms.specs.declared.things.Uncommitted.TheVariants as uncommitted;
ghost use Rattle.r4_base.specs.declared.things.AtomNo.{AtomNo};
ghost use Rattle.r4_content.specs.Locality.{Meaning};
ghost use Rattle.r4_content.specs.declared.command.Command.{Command};
ghost use Rattle.r4_content.specs.declared.command.Command.TheVariants as commands;
ghost use Rattle.r4_content.specs.declared.reply.Reply.{Reply};
ghost use Rattle.r4_locks.specs.Locks.{LocksSeen};
ghost use Rattle.r4_turns.specs.r4_script.Spelling.{AreScripts};
ghost use Rattle.r4_trace.specs.Ids.{Start};
ghost use Rattle.r4_trace.specs.Job.{HasNoBegin, IsWork};
ghost use Rattle.r4_trace.specs.declared.entry.Entry.{Entry};
ghost use Rattle.r4_turns.specs.Turns.{IsScript, TurnsSeen, commands_at, with_command};
ghost use Rattle.r4_history.specs.declared.why.Why.{Why};
ghost use Rattle.r4_history.specs.Held.{AreOwners, Need, TasksTell};
ghost use Rattle.r4_history.specs.Serving.{AreOrdered, AsksForFlush, IsServedNext, IsAtWork, IsWaiting, Suits, WaitsFor};
ghost use Rattle.r4_history.specs.Tables.{Stands, Tables};
ghost use Rattle.r4_turns.specs.declared.turn.Open.{Open};
ghost use Rattle.r4_history.specs.Told.{IsTold};

/// A script waits for one reason, and what is told where none can be served is one reason too. It
/// is not told where one can be served.
pub fn scripts_wait_for_one_reason()
    ensures script { (w : Meaning Command Reply) (start : Option Start) (clock : ℕ) (t : Tables)
        (trace : List Entry) → IsTold w start clock t trace
        → (locks : LocksSeen) (need : Option Need) (s : ℕ) (one two : Why) → AreOwners t.atoms
        → WaitsFor t locks need s one → WaitsFor t locks need s two → one ≡ two }
    ensures told { (w : Meaning Command Reply) (start : Option Start) (clock : ℕ) (t : Tables)
        (trace : List Entry) → IsTold w start clock t trace
        → (locks : LocksSeen) (needs : ℕ → Option Need) (one two : Why) → AreOwners t.atoms
        → IsWaiting t locks needs one → IsWaiting t locks needs two → one ≡ two }
    ensures either { (t : Tables) (locks : LocksSeen) (needs : ℕ → Option Need) (s : ℕ) (why : Why)
        → IsServedNext t locks needs s → IsWaiting t locks needs why → ⊥ }
{}

/// Where no script can be served though one is not finished, a task is out or a commit is under
/// way.
pub fn something_is_waited_for()
    ensures { (w : Meaning Command Reply) (start : Option Start) (clock : ℕ) (t : Tables)
        (trace : List Entry) → IsTold w start clock t trace
        → (locks : LocksSeen) (needs : ℕ → Option Need) → TasksTell t locks → AreOwners t.atoms
        → AreOrdered t.turns → (why : Why) → IsWaiting t locks needs why → IsAtWork t }
{}

/// Where no atom of a script is left that is not sealed, and no commit is under way, each of its
/// transactions is in a committed atom. So a `commit` is acknowledged, waits, or asks for a flush
/// of an atom that can be sealed.
pub fn commits_have_answers()
    ensures committed { (w : Meaning Command Reply) (start : Option Start) (clock : ℕ) (t : Tables)
        (trace : List Entry) → IsTold w start clock t trace
        → (s : ℕ) → t.broken ≡ None → t.commit ≡ None
        → IsUncommittedOf t.atoms s uncommitted.None → AllCommitted t.atoms s }
    ensures flush { (w : Meaning Command Reply) (start : Option Start) (clock : ℕ) (t : Tables)
        (trace : List Entry) → IsTold w start clock t trace
        → (s : ℕ) (atom : AtomNo) → AsksForFlush t s atom → IsClosedAtom t.atoms atom.0 }
{}

/// In the scripts of a text transactions begin outside of one another and end; and so it is with a
/// command more, that is no `begin` or `end`, in a script without `begin`.
pub fn scripts_are_ordered()
    ensures text { (t : TurnsSeen) → length t.turns ≡ length t.job.scripts
        → AreScripts t.job.scripts → AreOrdered t }
    ensures pushed { (t : TurnsSeen) (s : ℕ) (c : Command) → IsScript t s
        → length t.turns ≡ length t.job.scripts → HasNoBegin (commands_at t s)
        → IsWork c ⊎ (c ≡ commands.Commit) → AreOrdered t → AreOrdered (with_command t s c) }
{}

/// What comes next in a script suits its open transaction.
pub fn next_commands_suit()
    ensures { (w : Meaning Command Reply) (start : Option Start) (clock : ℕ) (t : Tables)
        (trace : List Entry) → IsTold w start clock t trace
        → (s : ℕ) (o : Option Open) (c : Option Command) → AreOrdered t.turns → t.broken ≡ None
        → Stands t.turns s o c → Suits o c }
{}

//! Laws of the ids that a run draws.

ghost use Rattle.std.specs.Prelude.{◌≡◌, ◌≤◌, ◌∷◌, [], ℕ, List, length, Option, Some, None};
ghost use Rattle.r4_base.specs.declared.things.ScriptNo.{ScriptNo};
ghost use Rattle.r4_base.specs.declared.things.TxnNo.{TxnNo};
ghost use Rattle.r4_content.specs.Meaning.{with_id};
ghost use Rattle.r4_content.specs.declared.command.Command.{Command};
ghost use Rattle.r4_content.specs.declared.reply.Reply.{Reply};
ghost use Rattle.r4_turns.specs.r4_script.declared.job.Job.{Job};
ghost use Rattle.r4_trace.specs.Ids.{Start, no_id};
ghost use Rattle.r4_trace.specs.declared.entry.Entry.{Entry};
ghost use Rattle.r4_trace.specs.declared.entry.Entry.TheVariants.{Done};
ghost use Rattle.r4_turns.specs.Turns.{IsScript, TurnsSeen, answered_one, dropped, entered, given_back, gone_out};
ghost use Rattle.r4_turns.specs.Turns.{left, started, turn_at, with_command};
ghost use Rattle.r4_turns.specs.declared.out.Out.{Out};
ghost use Rattle.r4_turns.specs.declared.turn.Open.{Open};
ghost use Rattle.r4_history.specs.Tables.{asked, next_at};
ghost use Rattle.r4_history.specs.Told.{HasNewId};
ghost use Rattle.r4_history.specs.Drawn.{AreDrawn, BeginsAt, GetsNumbers, IsNoDone, next_after};

/// Each id is drawn once: as a command that makes an object goes out for the first time. It is kept
/// where the command is given back, and stands in its Done entry. The last one is drawn again and
/// again.
pub fn ids_are_drawn_once()
    ensures start { (o : ℕ) (job : Job) → o ≤ no_id → AreDrawn o (started job) o [] }
    ensures out { (o : ℕ) (t : TurnsSeen) (next : ℕ) (trace : List Entry) → AreDrawn o t next trace
        → (s : ℕ) (c : Command) (out : Out) (after : ℕ) → IsScript t s → next_at t s ≡ Some c
        → (turn_at t s).out ≡ None → GetsNumbers t s c next after out.numbers
        → AreDrawn o (gone_out t s out) after trace }
    ensures back { (o : ℕ) (t : TurnsSeen) (next : ℕ) (trace : List Entry) → AreDrawn o t next trace
        → (s : ℕ) (out : Out) → IsScript t s → (turn_at t s).out ≡ Some out
        → AreDrawn o (given_back t s out.numbers) next trace }
    ensures done { (o : ℕ) (t : TurnsSeen) (next : ℕ) (trace : List Entry) → AreDrawn o t next trace
        → (txn : TxnNo) (s : ScriptNo) (i : ℕ) (c had : Command) (r : Reply) (out : Out)
        → IsScript t s.0 → next_at t s.0 ≡ Some had → (turn_at t s.0).out ≡ Some out
        → c ≡ with_id out.numbers.oid had
        → AreDrawn o (answered_one (dropped t s.0) s.0) next (Done txn s i c r ∷ trace) }
    ensures last { (c : Command) → next_after c no_id ≡ no_id }
{}

/// What else a step does leaves the ids as they are. A refused command's id is used up.
pub fn ids_stay()
    ensures entered { (o : ℕ) (t : TurnsSeen) (next : ℕ) (trace : List Entry)
        → AreDrawn o t next trace → (s : ℕ) (x : Open) → IsScript t s
        → AreDrawn o (entered t s x) next trace }
    ensures left { (o : ℕ) (t : TurnsSeen) (next : ℕ) (trace : List Entry)
        → AreDrawn o t next trace → (s : ℕ) → IsScript t s → AreDrawn o (left t s) next trace }
    ensures answered { (o : ℕ) (t : TurnsSeen) (next : ℕ) (trace : List Entry)
        → AreDrawn o t next trace → (s : ℕ) → IsScript t s → (turn_at t s).out ≡ None
        → AreDrawn o (answered_one t s) next trace }
    ensures dropped { (o : ℕ) (t : TurnsSeen) (next : ℕ) (trace : List Entry)
        → AreDrawn o t next trace → (s : ℕ) → IsScript t s
        → AreDrawn o (answered_one (dropped t s) s) next trace }
    ensures entry { (o : ℕ) (t : TurnsSeen) (next : ℕ) (trace : List Entry)
        → AreDrawn o t next trace → (e : Entry) → IsNoDone e → AreDrawn o t next (e ∷ trace) }
    ensures pushed { (o : ℕ) (t : TurnsSeen) (next : ℕ) (trace : List Entry)
        → AreDrawn o t next trace → (s : ℕ) (c : Command) → IsScript t s
        → length t.turns ≡ length t.job.scripts → AreDrawn o (with_command t s c) next trace }
{}

/// The id of a command that is out is a new one, whatever start is named.
pub fn drawn_ids_are_new()
    ensures { (o : ℕ) (t : TurnsSeen) (next : ℕ) (trace : List Entry) → AreDrawn o t next trace
        → (start : Option Start) (s : ℕ) (had c : Command) (out : Out) → BeginsAt o start
        → IsScript t s → next_at t s ≡ Some had → (turn_at t s).out ≡ Some out
        → c ≡ with_id out.numbers.oid had → HasNewId start (asked t.job) trace c }
{}

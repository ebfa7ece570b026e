//! Laws of runs: their start, steps without an entry, and what tables tell at any time and at the
//! end.

ghost use Rattle.std.specs.Prelude.{◌≡◌, ◌≤◌, [], ℕ, true, List, Option, Some};
ghost use Rattle.r4_atoms.specs.Atoms.{AtomsSeen, IsAtom, IsBegun, is_sealed, state_of, txn_of, with_state};
ghost use Rattle.r4_atoms.specs.declared.things.Account.{Account};
ghost use Rattle.r4_content.specs.Locality.{Meaning};
ghost use Rattle.r4_content.specs.declared.command.Command.{Command};
ghost use Rattle.r4_content.specs.declared.reply.Reply.{Reply};
ghost use Rattle.r4_turns.specs.r4_script.declared.job.Job.{Job};
ghost use Rattle.r4_trace.specs.Ids.{Start};
ghost use Rattle.r4_trace.specs.Job.{HasNoBegin};
ghost use Rattle.r4_trace.specs.Legal.{IsLegal, IsWhole};
ghost use Rattle.r4_trace.specs.declared.entry.Entry.{Entry};
ghost use Rattle.r4_turns.specs.Turns.{IsScript, commands_at, dropped, given_back, gone_out, turn_at, with_command};
ghost use Rattle.r4_turns.specs.declared.out.Numbers.{Numbers};
ghost use Rattle.r4_turns.specs.declared.out.Out.{Out};
ghost use Rattle.r4_turns.specs.declared.turn.Open.{Open};
ghost use Rattle.r4_history.specs.Tables.{IsOver, Tables, asked, opened};
ghost use Rattle.r4_history.specs.Told.{IsTold};

/// A run begins with the tables of its job and an empty trace.
pub fn runs_begin()
    ensures { (w : Meaning Command Reply) (start : Option Start) (clock : ℕ) (job : Job)
        (spare txn_spare : ℕ) → IsTold w start clock (opened job spare txn_spare) [] }
{}

/// Steps that no entry tells leave the trace as it is: a task goes out, is given back or is
/// dropped; owners, rooms and accounts change; a command comes to the end of a script without
/// `begin`; calls of the device go by.
pub fn steps_tell_nothing()
    ensures out { (w : Meaning Command Reply) (start : Option Start) (clock : ℕ) (t : Tables)
        (trace : List Entry) → IsTold w start clock t trace
        → (s : ℕ) (out : Out) → IsScript t.turns s
        → IsTold w start clock (record t { turns = gone_out t.turns s out }) trace }
    ensures dropped { (w : Meaning Command Reply) (start : Option Start) (clock : ℕ) (t : Tables)
        (trace : List Entry) → IsTold w start clock t trace
        → (s : ℕ) → IsScript t.turns s
        → IsTold w start clock (record t { turns = dropped t.turns s }) trace }
    ensures back { (w : Meaning Command Reply) (start : Option Start) (clock : ℕ) (t : Tables)
        (trace : List Entry) → IsTold w start clock t trace
        → (s : ℕ) (n : Numbers) → IsScript t.turns s
        → IsTold w start clock (record t { turns = given_back t.turns s n }) trace }
    ensures pushed { (w : Meaning Command Reply) (start : Option Start) (clock : ℕ) (t : Tables)
        (trace : List Entry) → IsTold w start clock t trace
        → (s : ℕ) (c : Command) → IsScript t.turns s → HasNoBegin (commands_at t.turns s)
        → IsTold w start clock (record t { turns = with_command t.turns s c }) trace }
    ensures owners { (w : Meaning Command Reply) (start : Option Start) (clock : ℕ) (t : Tables)
        (trace : List Entry) → IsTold w start clock t trace
        → (atoms : AtomsSeen) → atoms.txns ≡ t.atoms.txns → atoms.atoms ≡ t.atoms.atoms
        → IsTold w start clock (record t { atoms = atoms }) trace }
    ensures charged { (w : Meaning Command Reply) (start : Option Start) (clock : ℕ) (t : Tables)
        (trace : List Entry) → IsTold w start clock t trace
        → (a : ℕ) (account : Account)
        → IsTold w start clock
        (record t {
          atoms =
              with_state t.atoms a (record (state_of t.atoms a) { account = account });
        })
        trace }
    ensures later { (w : Meaning Command Reply) (start : Option Start) (clock : ℕ) (t : Tables)
        (trace : List Entry) → IsTold w start clock t trace
        → (now : ℕ) → clock ≤ now → IsTold w start now t trace }
{}

/// A trace that the tables tell is legal. What a script has open is open in the table of atoms too,
/// as its own; and the atom whose commit is under way is sealed.
pub fn told_traces_are_legal()
    ensures legal { (w : Meaning Command Reply) (start : Option Start) (clock : ℕ) (t : Tables)
        (trace : List Entry) → IsTold w start clock t trace
        → IsLegal w start (Some (asked t.turns.job)) trace }
    ensures begun { (w : Meaning Command Reply) (start : Option Start) (clock : ℕ) (t : Tables)
        (trace : List Entry) → IsTold w start clock t trace
        → (s : ℕ) (o : Open) → IsScript t.turns s → (turn_at t.turns s).transaction ≡ Some o
        → IsBegun t.atoms o.txn.0
        × ((txn_of t.atoms o.txn.0).is_open ≡ true)
        × ((txn_of t.atoms o.txn.0).script ≡ s) }
    ensures commit { (w : Meaning Command Reply) (start : Option Start) (clock : ℕ) (t : Tables)
        (trace : List Entry) → IsTold w start clock t trace
        → (a : ℕ) → t.commit ≡ Some a → IsAtom t.atoms a × (is_sealed t.atoms a ≡ true) }
{}

/// A run is whole where its scripts are finished, no atom is left, no commit is under way, and no
/// call of the device failed: each of its transactions is in a committed atom.
pub fn runs_are_whole()
    ensures { (w : Meaning Command Reply) (start : Option Start) (clock : ℕ) (t : Tables)
        (trace : List Entry) → IsTold w start clock t trace
        → IsOver t → IsWhole (asked t.turns.job) trace }
{}

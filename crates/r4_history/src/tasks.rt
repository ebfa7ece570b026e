//! Laws of tasks that are out: what they hold, and who owns what they reach.

ghost use Rattle.std.specs.Prelude.{◌≡◌, ◌≢◌, ◌==◌, [], ℕ, Contains, List, length, Option, Some, None, if◌then◌else◌};
ghost use Rattle.std.specs.Option.{option_map};
ghost use Rattle.r4_atoms.specs.Atoms.{AtomsSeen, IsFreeFor, IsOpenAtom, atom_of, numbers, owner_of, state_of};
ghost use Rattle.r4_atoms.specs.Atoms.{with_state, without_owner};
ghost use Rattle.r4_atoms.specs.Names.{renamed};
ghost use Rattle.r4_atoms.specs.declared.things.AtomState.{AtomState};
ghost use Rattle.r4_content.specs.Locality.{Meaning};
ghost use Rattle.r4_content.specs.declared.command.Command.{Command};
ghost use Rattle.r4_content.specs.declared.reply.Reply.{Reply};
ghost use Rattle.r4_locks.specs.Locks.{AreHolds, IsNew, IsTask, LocksSeen, OthersAsBefore, Takes, task_at};
ghost use Rattle.r4_turns.specs.r4_script.declared.job.Job.{Job};
ghost use Rattle.r4_trace.specs.Ids.{Start};
ghost use Rattle.r4_trace.specs.declared.entry.Entry.{Entry};
ghost use Rattle.r4_turns.specs.Turns.{IsScript, answered_one, dropped, entered, given_back, gone_out, left};
ghost use Rattle.r4_turns.specs.Turns.{turn_at, with_command};
ghost use Rattle.r4_turns.specs.declared.out.Out.{Out};
ghost use Rattle.r4_turns.specs.declared.turn.Open.{Open};
ghost use Rattle.r4_history.specs.Held.{HoldsNew, IsOut, IsServed, OwnersFollow, TasksTell, need_of, nodes_of};
ghost use Rattle.r4_history.specs.Tables.{Begins, Fuses, Tables, opened, with_ended};
ghost use Rattle.r4_history.specs.Told.{IsTold};

/// A task goes out with what it holds, and holds nothing once it is given back or dropped.
pub fn tasks_come_and_go()
    ensures start { (job : Job) (spare txn_spare : ℕ) (locks : LocksSeen) → locks.tasks ≡ []
        → TasksTell (opened job spare txn_spare) locks }
    ensures new { (before mid after : LocksSeen) (out : Out) → task_at before out.task.0 ≡ None
        → OthersAsBefore before mid out.task.0 → IsNew mid out.task.0
        → Takes mid after out.task.0 (need_of out).reads (need_of out).writes
        → IsTask after out.task.0 → OthersAsBefore mid after out.task.0
        → HoldsNew before after out }
    ensures out { (t : Tables) (locks after : LocksSeen) → TasksTell t locks → (s : ℕ) (out : Out)
        → IsScript t.turns s → (turn_at t.turns s).out ≡ None → HoldsNew locks after out
        → IsServed t s out → TasksTell (record t { turns = gone_out t.turns s out }) after }
    ensures back { (t : Tables) (locks after : LocksSeen) → TasksTell t locks → (s : ℕ) (out : Out)
        → IsOut t.turns s out → task_at after out.task.0 ≡ None
        → OthersAsBefore locks after out.task.0
        → TasksTell (record t { turns = given_back t.turns s out.numbers }) after }
    ensures dropped { (t : Tables) (locks after : LocksSeen) → TasksTell t locks → (s : ℕ)
        (out : Out) → IsOut t.turns s out → task_at after out.task.0 ≡ None
        → OthersAsBefore locks after out.task.0
        → TasksTell (record t { turns = dropped t.turns s }) after }
{}

/// What happens in a script without a task out concerns no task, nor do a command that comes to the
/// end of a script, a commit and a failure.
pub fn tasks_stay_out()
    ensures entered { (t : Tables) (locks : LocksSeen) → TasksTell t locks → (s : ℕ) (x : Open)
        → IsScript t.turns s → (turn_at t.turns s).out ≡ None
        → TasksTell (record t { turns = entered t.turns s x }) locks }
    ensures left { (t : Tables) (locks : LocksSeen) → TasksTell t locks → (s : ℕ)
        → IsScript t.turns s → (turn_at t.turns s).out ≡ None
        → TasksTell (record t { turns = left t.turns s }) locks }
    ensures answered { (t : Tables) (locks : LocksSeen) → TasksTell t locks → (s : ℕ)
        → IsScript t.turns s → (turn_at t.turns s).out ≡ None
        → TasksTell (record t { turns = answered_one t.turns s }) locks }
    ensures others { (t : Tables) (locks : LocksSeen) → TasksTell t locks
        → (commit broken : Option ℕ)
        → TasksTell (record t { commit = commit; broken = broken }) locks }
    ensures pushed { (t : Tables) (locks : LocksSeen) → TasksTell t locks → (s : ℕ) (c : Command)
        → IsScript t.turns s → length t.turns.turns ≡ length t.turns.job.scripts
        → TasksTell (record t { turns = with_command t.turns s c }) locks }
    ensures owners { (t : Tables) (locks : LocksSeen) → TasksTell t locks → (atoms : AtomsSeen)
        → OwnersFollow t atoms → TasksTell (record t { atoms = atoms }) locks }
{}

/// What the table of atoms does leaves each node that a task reaches with the atom of that task, or
/// with none. A node that is captured, or gets an owner by its new name, is to be in no reach of a
/// task that is out.
pub fn tasks_keep_their_owners()
    ensures begins { (w : Meaning Command Reply) (start : Option Start) (clock : ℕ) (t : Tables)
        (trace : List Entry) → IsTold w start clock t trace → (locks : LocksSeen)
        → TasksTell t locks
        → (atoms : AtomsSeen) (script : ℕ) → Begins t.atoms atoms script
        → ((n : ℕ) → owner_of atoms n ≡ owner_of t.atoms n)
        → TasksTell (record t { atoms = atoms }) locks }
    ensures ends { (t : Tables) (locks : LocksSeen) → TasksTell t locks
        → (txn : ℕ) → TasksTell (record t { atoms = with_ended t.atoms txn }) locks }
    ensures fuses { (w : Meaning Command Reply) (start : Option Start) (clock : ℕ) (t : Tables)
        (trace : List Entry) → IsTold w start clock t trace → (locks : LocksSeen)
        → TasksTell t locks
        → (atoms : AtomsSeen) (kept gone : ℕ) → Fuses t.atoms atoms kept gone
        → ((n : ℕ) → owner_of atoms n ≡ option_map (renamed kept gone) (owner_of t.atoms n))
        → TasksTell (record t { atoms = atoms }) locks }
    ensures states { (t : Tables) (locks : LocksSeen) → TasksTell t locks
        → (a : ℕ) (x : AtomState) → x.cleaned ≡ (state_of t.atoms a).cleaned
        → TasksTell (record t { atoms = with_state t.atoms a x }) locks }
    ensures cleaned { (t : Tables) (locks : LocksSeen) → TasksTell t locks
        → (atoms : AtomsSeen) (atom : ℕ) → atoms.txns ≡ t.atoms.txns
        → ((n : ℕ) → owner_of atoms n ≡ without_owner atom (owner_of t.atoms n))
        → TasksTell (record t { atoms = atoms }) locks }
    ensures captured { (t : Tables) (locks : LocksSeen) → TasksTell t locks
        → (atoms : AtomsSeen) (atom node : ℕ) → atoms.txns ≡ t.atoms.txns
        → ((n : ℕ) →
        owner_of atoms n ≡ (if node == n then Some atom else owner_of t.atoms n))
        → ((s : ℕ) (out : Out) → IsOut t.turns s out → Contains (nodes_of (need_of out)) node → ⊥)
        → TasksTell (record t { atoms = atoms }) locks }
    ensures renamed { (t : Tables) (locks : LocksSeen) → TasksTell t locks
        → (atoms : AtomsSeen) (from to : ℕ) → atoms.txns ≡ t.atoms.txns
        → owner_of atoms from ≡ None
        → ((n : ℕ) → n ≢ from → n ≢ to → owner_of atoms n ≡ owner_of t.atoms n)
        → ((s : ℕ) (out : Out) → IsOut t.turns s out → Contains (nodes_of (need_of out)) to → ⊥)
        → TasksTell (record t { atoms = atoms }) locks }
{}

/// What one task writes no other task that is out reads or writes.
pub fn tasks_are_apart()
    ensures { (t : Tables) (locks : LocksSeen) → TasksTell t locks → AreHolds locks
        → (s q : ℕ) (a b : Out) (node : ℕ) → IsOut t.turns s a → IsOut t.turns q b → s ≢ q
        → Contains (numbers (need_of a).writes) node → Contains (nodes_of (need_of b)) node → ⊥ }
{}

/// The atom of a task that is out is open, and no other open atom owns a node that it reaches: so
/// its atom may capture each of them.
pub fn tasks_may_capture()
    ensures atom { (w : Meaning Command Reply) (start : Option Start) (clock : ℕ) (t : Tables)
        (trace : List Entry) → IsTold w start clock t trace → (locks : LocksSeen)
        → TasksTell t locks → (s : ℕ) (out : Out) → IsOut t.turns s out
        → IsOpenAtom t.atoms (atom_of t.atoms out.txn.0) }
    ensures free { (t : Tables) (locks : LocksSeen) → TasksTell t locks → (s : ℕ) (out : Out)
        (node : ℕ) → IsOut t.turns s out → Contains (nodes_of (need_of out)) node
        → IsFreeFor t.atoms (atom_of t.atoms out.txn.0) node }
{}

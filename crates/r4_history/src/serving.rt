//! Laws of serving: which script is served, and which atoms fuse.

ghost use Rattle.std.specs.Prelude.{◌≡◌, ◌≢◌, ◌<◌, ℕ, Contains, List, Option, Some, None, false};
ghost use Rattle.r4_atoms.specs.Atoms.{AtomsSeen, IsBegun, IsOpenAtom, atom_of, is_sealed, numbers, owner_of};
ghost use Rattle.r4_content.specs.Locality.{Meaning};
ghost use Rattle.r4_content.specs.declared.command.Command.{Command};
ghost use Rattle.r4_content.specs.declared.reply.Reply.{Reply};
ghost use Rattle.r4_locks.specs.Locks.{LocksSeen};
ghost use Rattle.r4_trace.specs.Ids.{Start};
ghost use Rattle.r4_trace.specs.declared.entry.Entry.{Entry};
ghost use Rattle.r4_trace.specs.Job.{IsWork};
ghost use Rattle.r4_turns.specs.Turns.{IsScript, answered_at};
ghost use Rattle.r4_turns.specs.declared.out.Out.{Out};
ghost use Rattle.r4_turns.specs.declared.turn.Open.{Open};
ghost use Rattle.r4_history.specs.Held.{AreOwners, IsServed, Need, need_of, nodes_of};
ghost use Rattle.r4_history.specs.Serving.{AreOthers, FusesAll, IsPassedOver, IsSealedOwner, IsServedNext, fused};
ghost use Rattle.r4_history.specs.Serving.{least_of};
ghost use Rattle.r4_history.specs.Tables.{Stands, Tables};
ghost use Rattle.r4_history.specs.Told.{IsTold};

/// At most one script is the next to be served. One that has fewer answered commands and can be
/// served comes first, whatever its number is.
pub fn one_script_is_served()
    ensures one { (t : Tables) (locks : LocksSeen) (needs : ℕ → Option Need) (s q : ℕ)
        → IsServedNext t locks needs s → IsServedNext t locks needs q → s ≡ q }
    ensures fewest { (t : Tables) (locks : LocksSeen) (needs : ℕ → Option Need) (s q : ℕ)
        → IsServedNext t locks needs s → IsScript t.turns q
        → (IsPassedOver t locks needs q → ⊥)
        → answered_at t.turns q < answered_at t.turns s → ⊥ }
{}

/// With which atoms the atom of a command fuses is one list. An open atom is in it where it owns a
/// node that the command reads or writes, and not where it owns none of them.
pub fn others_are_exact()
    ensures one { (s : AtomsSeen) (own : ℕ) (need : Need) (one two : List (ℕ × ℕ))
        → AreOthers s own need one → AreOthers s own need two → one ≡ two }
    ensures owners { (s : AtomsSeen) (own : ℕ) (need : Need) (others : List (ℕ × ℕ))
        → AreOthers s own need others → (a node : ℕ) → Contains (nodes_of need) node
        → owner_of s node ≡ Some a → a ≢ own → is_sealed s a ≡ false
        → (n : ℕ) × Contains others (a, n) }
    ensures reads { (s : AtomsSeen) (own : ℕ) (need : Need) (others : List (ℕ × ℕ))
        → AreOthers s own need others → (a node : ℕ) → Contains (numbers need.reads) node
        → owner_of s node ≡ Some a → a ≢ own → is_sealed s a ≡ false
        → (n : ℕ) × Contains others (a, n) }
    ensures strangers { (s : AtomsSeen) (own : ℕ) (need : Need) (others : List (ℕ × ℕ))
        → AreOthers s own need others → (a n : ℕ)
        → ((node : ℕ) → Contains (nodes_of need) node → owner_of s node ≡ Some a → ⊥)
        → Contains others (a, n) → ⊥ }
{}

/// The atom of a command fuses with all of them, one after the other: the entries may follow, and
/// tables and trace go on alike. After that no other atom owns a node of its reach, where no sealed
/// one did; so a task that goes out then is served.
pub fn commands_fuse_atoms()
    ensures told { (w : Meaning Command Reply) (start : Option Start) (clock : ℕ) (t : Tables)
        (trace : List Entry) → IsTold w start clock t trace → (own : ℕ) (need : Need)
        (others : List (ℕ × ℕ)) (atoms : AtomsSeen) → t.broken ≡ None → AreOwners t.atoms
        → IsOpenAtom t.atoms own → AreOthers t.atoms own need others
        → FusesAll t.atoms own others atoms
        → IsTold w start clock (record t { atoms = atoms }) (fused own others trace) }
    ensures reach { (s : AtomsSeen) (own : ℕ) (need : Need) (others : List (ℕ × ℕ))
        (after : AtomsSeen) → AreOthers s own need others → FusesAll s own others after
        → ((a : ℕ) → IsSealedOwner s need a → ⊥) → (node b : ℕ)
        → Contains (nodes_of need) node → owner_of after node ≡ Some b
        → b ≡ least_of own others }
    ensures atom { (s : AtomsSeen) (own : ℕ) (others : List (ℕ × ℕ)) (after : AtomsSeen)
        → FusesAll s own others after → (txn : ℕ) → IsBegun s txn → atom_of s txn ≡ own
        → atom_of after txn ≡ least_of own others }
    ensures served { (t : Tables) (s : ℕ) (within : Open) (c : Command) (out : Out)
        (others : List (ℕ × ℕ)) (after : AtomsSeen) → Stands t.turns s (Some within) (Some c)
        → IsWork c → within.txn ≡ out.txn → IsBegun t.atoms out.txn.0
        → AreOthers t.atoms (atom_of t.atoms out.txn.0) (need_of out) others
        → FusesAll t.atoms (atom_of t.atoms out.txn.0) others after
        → ((a : ℕ) → IsSealedOwner t.atoms (need_of out) a → ⊥)
        → IsServed (record t { atoms = after }) s out }
{}

//! Laws of atoms: where they fuse and where they are committed, tables and trace go on alike.

ghost use Rattle.std.specs.Prelude.{◌≡◌, ◌<◌, ◌≤◌, ◌∷◌, ℕ, true, false, List, Option, Some, None};
ghost use Rattle.r4_atoms.specs.Atoms.{AtomsSeen, IsOpenAtom, IsOpenIn, is_committed};
ghost use Rattle.r4_base.specs.declared.things.AtomNo.{AtomNo};
ghost use Rattle.r4_base.specs.declared.things.NodeId.{NodeId};
ghost use Rattle.r4_content.specs.Locality.{Meaning};
ghost use Rattle.r4_content.specs.declared.command.Command.{Command};
ghost use Rattle.r4_content.specs.declared.reply.Reply.{Reply};
ghost use Rattle.r4_trace.specs.Ids.{Start};
ghost use Rattle.r4_trace.specs.declared.entry.Entry.{Entry};
ghost use Rattle.r4_trace.specs.declared.entry.Entry.TheVariants.{Broken, Committed, Fuse, Sealed};
ghost use Rattle.r4_history.specs.Tables.{Fuses, Tables, with_cleaned, with_committed, with_sealed};
ghost use Rattle.r4_history.specs.Told.{IsTold};

/// Two open atoms become one, which the smaller names.
pub fn two_atoms_fuse()
    ensures { (w : Meaning Command Reply) (start : Option Start) (clock : ℕ) (t : Tables)
        (trace : List Entry) → IsTold w start clock t trace
        → (kept gone : AtomNo) (node : NodeId) (atoms : AtomsSeen) → t.broken ≡ None
        → IsOpenAtom t.atoms kept.0 → IsOpenAtom t.atoms gone.0 → kept.0 < gone.0
        → Fuses t.atoms atoms kept.0 gone.0
        → IsTold w start clock (record t { atoms = atoms }) (Fuse kept gone node ∷ trace) }
{}

/// An atom is sealed where none of its transactions is open and no commit is under way. It is
/// committed once, with the clock of then. After that its commit is over once its nodes are clean.
/// A failed call of the device ends a commit.
pub fn atoms_are_committed()
    ensures sealed { (w : Meaning Command Reply) (start : Option Start) (clock : ℕ) (t : Tables)
        (trace : List Entry) → IsTold w start clock t trace
        → (atom : AtomNo) → t.broken ≡ None → t.commit ≡ None → IsOpenAtom t.atoms atom.0
        → ((txn : ℕ) → IsOpenIn t.atoms atom.0 txn → ⊥)
        → IsTold w start clock
        (record t { atoms = with_sealed t.atoms atom.0; commit = Some atom.0 })
        (Sealed atom ∷ trace) }
    ensures committed { (w : Meaning Command Reply) (start : Option Start) (clock : ℕ) (t : Tables)
        (trace : List Entry) → IsTold w start clock t trace
        → (atom : AtomNo) (now : ℕ) → t.broken ≡ None → t.commit ≡ Some atom.0
        → is_committed t.atoms atom.0 ≡ false → clock ≤ now
        → IsTold w start now (record t { atoms = with_committed t.atoms atom.0 })
        (Committed atom now ∷ trace) }
    ensures settled { (w : Meaning Command Reply) (start : Option Start) (clock : ℕ) (t : Tables)
        (trace : List Entry) → IsTold w start clock t trace
        → (atom : ℕ) → t.broken ≡ None → t.commit ≡ Some atom
        → is_committed t.atoms atom ≡ true
        → IsTold w start clock (record t { atoms = with_cleaned t.atoms atom; commit = None })
        trace }
    ensures broken { (w : Meaning Command Reply) (start : Option Start) (clock : ℕ) (t : Tables)
        (trace : List Entry) → IsTold w start clock t trace
        → (now faults : ℕ) → t.broken ≡ None → clock ≤ now
        → IsTold w start now (record t { commit = None; broken = Some now })
        (Broken now faults ∷ trace) }
{}

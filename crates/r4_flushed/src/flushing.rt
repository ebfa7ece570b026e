//! Laws of an open atom that is flushed and sealed (docs/durable.md). Each is the contract of a function that does
//! nothing.

ghost use Rattle.std.specs.Prelude.{◌≡◌, ◌⊎◌, ◌↔◌, ◌<◌, ◌^◌, ℕ, [], ◌∷◌, true, Some};
ghost use Rattle.r4_base.specs.Tree.{IsTree, Node, Root, Store};
ghost use Rattle.r4_base.specs.Value.{Content, Value};
ghost use Rattle.r4_base.specs.declared.things.AtomNo.{AtomNo};
ghost use Rattle.r4_base.specs.declared.things.NodeId.{NodeId};
ghost use Rattle.r4_base.specs.declared.things.ScriptNo.{ScriptNo};
ghost use Rattle.r4_base.specs.declared.things.TxnNo.{TxnNo};
ghost use Rattle.r4_placed.specs.r4_cell.Patch.{Patch};
ghost use Rattle.r4_content.specs.Locality.{Meaning};
ghost use Rattle.r4_content.specs.declared.command.Command.{Command};
ghost use Rattle.r4_content.specs.declared.reply.Reply.{Reply};
ghost use Rattle.r4_placed.specs.r4_place.Chosen.{placed_all};
ghost use Rattle.r4_placed.specs.r4_wander.declared.plan.LogPlan.{LogPlan};
ghost use Rattle.r4_placed.specs.r4_sets.Atoms.{committed, fused, opened};
ghost use Rattle.r4_placed.specs.r4_sets.Change.{Applies, applied, touches};
ghost use Rattle.r4_placed.specs.r4_sets.Session.{Session, Sets};
ghost use Rattle.r4_placed.specs.r4_sealed.Commits.{is_freed};
ghost use Rattle.r4_placed.specs.r4_space.Space.{Space, merged, settled};
ghost use Rattle.r4_flushed.specs.Deferred.{AreDeferred, AreDeferredBut};
ghost use Rattle.r4_placed.specs.r4_sealed.Written.{ComesFrom, Frees};
ghost use Rattle.r4_flushed.specs.Flushed.{AreFlushed, AreUnowned, IsFlushed, IsGone, IsSealedTo};
ghost use Rattle.r4_flushed.specs.Flushed.{OwnsBlocks, sealed_to, with_flushed};
ghost use Rattle.r4_placed.specs.Flushing.{Flushing, IsAtRest, commit_by_block, commit_of};

use r4_placed::on_disk_law;

/// The committed cells with the atom's in place, where each of its own has its names renamed, are those of the atom in
/// place under their new names (`gathered`). Each of them is written by the atom's commit or is a committed one that
/// stays (`comes`); and the commit frees exactly the blocks that have no cell any more (`frees`). So it is where the
/// plan is made for the cells under the names of their blocks.
pub fn flushed_cells_are_written()
    ensures gathered { (n : ℕ) (work : Flushing) (m : Content) (r : IsAtRest n work m) (c : Session)
        → AreFlushed c work r.content.store
        → IsFlushed c work r.content.store (with_flushed c work r.content.store) }
    ensures comes { (n : ℕ) (work : Flushing) (m : Content) (r : IsAtRest n work m) (c : Session)
        (u : Store Value) (root : Root) (p : LogPlan) → IsFlushed c work r.content.store u
        → IsTree u root → ComesFrom r.content (commit_of work p) u
        × ComesFrom r.content (commit_by_block work p) u }
    ensures frees { (n : ℕ) (work : Flushing) (m : Content) (r : IsAtRest n work m) (c : Session)
        (u : Store Value) (root : Root) (p : LogPlan) → IsFlushed c work r.content.store u
        → IsTree u root → Frees r.content (commit_of work p) u
        × Frees r.content (commit_by_block work p) u }
{
    on_disk_law();
}

/// An open atom, of whose cells each has its names renamed, can be sealed, where no open atom owns a block that was
/// chosen: the other cells in memory stay as they are, since a cell without a block is named by one of its own atom
/// (`sealed`). Where each owned block is that of a cell under the open atoms, nobody owns one that was chosen
/// (`unowned`). And the session means what it meant (`sets`).
pub fn flushed_atoms_are_sealed()
    ensures sealed { (w : Meaning Command Reply) (n : ℕ) (work : Flushing) (m : Content)
        (r : IsAtRest n work m) (c : Session) → Sets w c → AreFlushed c work r.content.store
        → AreUnowned c work → IsSealedTo c work r.content.store
        (with_flushed c work r.content.store) (with_flushed c work c.memory) }
    ensures unowned { (n : ℕ) (work : Flushing) (m : Content) (r : IsAtRest n work m) (c : Session)
        → AreFlushed c work r.content.store → OwnsBlocks c → AreUnowned c work }
    ensures sets { (w : Meaning Command Reply) (n : ℕ) (work : Flushing) (m : Content)
        (r : IsAtRest n work m) (c : Session) (u v : Store Value)
        → IsSealedTo c work r.content.store u v → Sets w c → Sets w (sealed_to c work u v) }
{}

/// A block that an open atom owns is that of a cell under the open atoms: at the beginning, and where a command is done
/// whose change takes no block as a new name, atoms become one, an atom is sealed, and one is committed.
pub fn owned_blocks_stand()
    ensures begun { (t : Store Value) (root : Root) (m : Content) → OwnsBlocks (opened t root m) }
    ensures applied { (w : Meaning Command Reply) (c : Session) (txn : TxnNo) (script : ScriptNo)
        (index : ℕ) (x : Command) (d : Patch Value) → OwnsBlocks c → Sets w c
        → Applies w c txn.0 x d
        → ((i : ℕ) → i < 2 ^ 63 → touches d i ≡ true → (e : Node Value) × (d.old i ≡ Some e))
        → OwnsBlocks (applied w c txn script index x d) }
    ensures fused { (c : Session) (a b : AtomNo) (node : NodeId) → OwnsBlocks c
        → OwnsBlocks (fused c a b node) }
    ensures sealed { (n : ℕ) (work : Flushing) (m : Content) (r : IsAtRest n work m) (c : Session)
        → AreFlushed c work r.content.store → OwnsBlocks c
        → OwnsBlocks (sealed_to c work (with_flushed c work r.content.store)
        (with_flushed c work c.memory)) }
    ensures committed { (c : Session) (a : AtomNo) (clock : ℕ) → OwnsBlocks c
        → OwnsBlocks (committed c a clock) }
{}

/// Exactly those blocks are deferred for each open atom whose cells under the open atoms it owns, and that are gone
/// from memory: at the beginning (`begun`), where two atoms become one (`fused`), of all others where an atom is sealed
/// (`sealed`), and where it settles (`settled`). So a commit frees just these (`freed`).
pub fn deferred_blocks_are_gone()
    ensures begun { (t : Store Value) (root : Root) (m : Content) (s : Space) → s.deferred ≡ []
        → AreDeferred (opened t root m) s }
    ensures fused { (c : Session) (s : Space) (a b : AtomNo) (node : NodeId) → AreDeferred c s
        → AreDeferred (fused c a b node) (merged s a b) }
    ensures sealed { (n : ℕ) (work : Flushing) (m : Content) (r : IsAtRest n work m) (c : Session)
        → AreFlushed c work r.content.store → AreUnowned c work → AreDeferred c work.space
        → AreDeferredBut work.atom
        (sealed_to c work (with_flushed c work r.content.store) (with_flushed c work c.memory))
        (placed_all work.space work.answers) }
    ensures settled { (c : Session) (s : Space) (atom : AtomNo) (clock : ℕ)
        → AreDeferredBut atom c s → AreDeferred (committed c atom clock) (settled s atom) }
    ensures freed { (c : Session) (s : Space) (atom : AtomNo) → AreDeferred c s
        → (s.sealed ≡ []) ⊎ (s.sealed ≡ atom ∷ []) → (b : ℕ)
        → (is_freed s atom b ≡ true) ↔ IsGone c atom c.under.cells b }
{}

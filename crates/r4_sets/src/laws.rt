//! Laws of sets of open atoms (docs/sets.md). Each is the contract of a function that does nothing.

ghost use Rattle.std.specs.Option.{option_or};
ghost use Rattle.std.specs.Prelude.{◌≡◌, ◌≢◌, ◌≤◌, ◌+◌, ℕ, List, Bool, Some, None};
ghost use Rattle.r4_base.specs.Tree.{Root, Store, IsTree};
ghost use Rattle.r4_base.specs.Value.{Content, Value};
ghost use Rattle.r4_base.specs.declared.things.AtomNo.{AtomNo};
ghost use Rattle.r4_base.specs.declared.things.NodeId.{NodeId};
ghost use Rattle.r4_base.specs.declared.things.ScriptNo.{ScriptNo};
ghost use Rattle.r4_base.specs.declared.things.TxnNo.{TxnNo};
ghost use Rattle.r4_patch.specs.r4_cell.Patch.{Apart, IsPatch, Meets, Patch, place, root_after};
ghost use Rattle.r4_content.specs.Locality.{IsLocal, Meaning};
ghost use Rattle.r4_content.specs.declared.command.Command.{Command};
ghost use Rattle.r4_content.specs.declared.reply.Reply.{Reply};
ghost use Rattle.r4_trace.specs.declared.entry.Entry.{Entry};
ghost use Rattle.r4_trace.specs.Folds.{everything};
ghost use Rattle.r4_trace.specs.Traced.{IsSealed, committed_in, sealed_in};
ghost use Rattle.r4_sets.specs.Atoms.{ChangesNoCell, Flushes, committed, flushed, fused, opened};
ghost use Rattle.r4_sets.specs.Atoms.{sealed, told};
ghost use Rattle.r4_sets.specs.Change.{Answers, Applies, answered, applied};
ghost use Rattle.r4_sets.specs.Renaming.{IsRenaming, Renames, renamed, renamed_root};
ghost use Rattle.r4_sets.specs.Session.{ChoosesAlike, IsTreeOf, Session, Sets, Stands, also, cells};
ghost use Rattle.r4_sets.specs.Session.{in_base, in_set, in_under, nothing, only, patch_of};
ghost use Rattle.r4_sets.specs.Session.{root_with};
ghost use Rattle.r4_sets.specs.Units.{SameUnit};

/// What each set of open atoms means: the cells under them with the set's in place are a tree, with the content of
/// the commands of the committed and the sealed atom and those of the set, in which each of these has its reply. So
/// are the committed cells alone, those with the sealed atom in place, and those in memory, which have the content of
/// all that was done. Of transactions in which no command was done it does not matter which are chosen.
pub fn sets_stand()
    ensures set { (w : Meaning Command Reply) (c : Session) → Sets w c → (s : ℕ → Bool)
        → Stands w c.start c.trace (in_set c s) (cells c s) (root_with c s) }
    ensures alone { (w : Meaning Command Reply) (c : Session) → Sets w c
        → Stands w c.start c.trace (in_base c) c.base.cells c.base.root }
    ensures under { (w : Meaning Command Reply) (c : Session) → Sets w c
        → Stands w c.start c.trace (in_under c) c.under.cells c.under.root }
    ensures memory { (w : Meaning Command Reply) (c : Session) → Sets w c
        → Stands w c.start c.trace everything c.memory c.root }
    ensures alike { (w : Meaning Command Reply) (start : Content) (trace : List Entry)
        (s u : ℕ → Bool) (t : Store Value) (root : Root) → ChoosesAlike s u trace
        → Stands w start trace s t root → Stands w start trace u t root }
{}

/// The cells of a set are those under the open atoms with the patches of its atoms in place, one after another. No
/// two atoms have a node in common. An atom that two become has the cells of both, and one that has none changes
/// nothing. What an atom has is a patch of the tree under the open atoms, where it does not make it lower.
pub fn sets_are_patches()
    ensures none { (c : Session) → (cells c nothing ≡ c.under.cells)
        × (root_with c nothing ≡ c.under.root) }
    ensures cells { (c : Session) (a : ℕ) (s : ℕ → Bool)
        → place (patch_of c a) (cells c s) ≡ cells c (also a s) }
    ensures root { (c : Session) (a : ℕ) (s : ℕ → Bool)
        → root_after (patch_of c a) (root_with c s) ≡ root_with c (also a s) }
    ensures apart { (c : Session) (a b : ℕ) → a ≢ b → Apart (patch_of c a) (patch_of c b) }
    ensures fused { (c : Session) (a b : AtomNo) (node : NodeId) (i : ℕ)
        → ((patch_of (fused c a b node) a.0).old i
        ≡ option_or ((patch_of c a.0).old i) ((patch_of c b.0).old i))
        × ((patch_of (fused c a b node) a.0).new i
        ≡ option_or ((patch_of c a.0).new i) ((patch_of c b.0).new i)) }
    ensures empty { (c : Session) (a : ℕ) → ((i : ℕ) → c.owner i ≡ Some a → ⊥)
        → (cells c (only a) ≡ c.under.cells) × (root_with c (only a) ≡ c.under.root) }
    ensures meets { (w : Meaning Command Reply) (c : Session) (a : ℕ) → Sets w c
        → Meets (patch_of c a) c.under.cells c.under.root }
    ensures patch { (w : Meaning Command Reply) (c : Session) (a : ℕ) → Sets w c
        → c.under.root.height ≤ (root_with c (only a)).height → IsPatch (patch_of c a) }
{}

/// A session begins on a tree whose files are as a volume has them.
pub fn session_begins()
    ensures sets { (w : Meaning Command Reply) (t : Store Value) (root : Root) (m : Content)
        → IsTreeOf t root m → Sets w (opened t root m) }
{}

/// A command of an open atom is done by a change of cells that belong to no other atom.
pub fn command_applies()
    ensures sets { (w : Meaning Command Reply) → IsLocal w → (c : Session) (txn : TxnNo)
        (script : ScriptNo) (index : ℕ) (x : Command) (d : Patch Value) → Sets w c
        → Applies w c txn.0 x d → Sets w (applied w c txn script index x d) }
{}

/// A command that changes no key is answered.
pub fn command_is_answered()
    ensures sets { (w : Meaning Command Reply) → IsLocal w → (c : Session) (txn : TxnNo)
        (script : ScriptNo) (index : ℕ) (x : Command) → Sets w c → Answers w c txn.0 x
        → Sets w (answered w c txn script index x) }
{}

/// A transaction begins or ends, a command is refused, a script's transactions are acknowledged, a call of the device
/// failed: none of this changes what a set of open atoms means.
pub fn entry_is_told()
    ensures sets { (w : Meaning Command Reply) (c : Session) (e : Entry) → Sets w c
        → ChangesNoCell e → Sets w (told c e) }
{}

/// Two open atoms become one, which has the name of the first.
pub fn atoms_fuse()
    ensures sets { (w : Meaning Command Reply) (c : Session) (a b : AtomNo) (node : NodeId)
        → Sets w c → (IsSealed c.trace a.0 → ⊥) → (IsSealed c.trace b.0 → ⊥)
        → Sets w (fused c a b node) }
{}

/// An open atom is sealed. Its cells belong to no open atom then, so that others may capture them; those of the
/// others stay theirs.
pub fn atom_is_sealed()
    ensures sets { (w : Meaning Command Reply) (c : Session) (a : AtomNo) → Sets w c
        → Sets w (sealed c a) }
    ensures freed { (c : Session) (a : AtomNo) (i : ℕ) → c.owner i ≡ Some a.0
        → (sealed c a).owner i ≡ None }
    ensures others { (c : Session) (a : AtomNo) (i n : ℕ) → n ≢ a.0 → c.owner i ≡ Some n
        → (sealed c a).owner i ≡ Some n }
{}

/// The sealed atom is committed. One is sealed and not committed.
pub fn atom_is_committed()
    ensures sets { (w : Meaning Command Reply) (c : Session) (a : AtomNo) (clock : ℕ) → Sets w c
        → sealed_in c.trace ≡ committed_in c.trace + 1 → Sets w (committed c a clock) }
{}

/// Cells of no open atom are changed, with no change of units.
pub fn cells_are_flushed()
    ensures sets { (w : Meaning Command Reply) (c : Session) (d : Patch Value) → Sets w c
        → Flushes c d → Sets w (flushed c d) }
{}

/// Cells get other names: a tree stays a tree, with the same units, and each set of open atoms means what it meant.
pub fn cells_are_renamed()
    ensures tree { (f g : ℕ → ℕ) (t u : Store Value) (root : Root) → IsRenaming f g t u
        → IsTree t root → IsTree u (renamed_root f root) }
    ensures units { (f g : ℕ → ℕ) (t u : Store Value) (k : ℕ) → IsRenaming f g t u
        → SameUnit t u k }
    ensures sets { (w : Meaning Command Reply) (c : Session) (f g : ℕ → ℕ)
        (under memory : Store Value) → Sets w c → Renames c f g under memory
        → Sets w (renamed c f under memory) }
{}

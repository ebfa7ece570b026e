//! Laws of changes that follow one another, and of what a patch does to units. Each is the contract of a function that does
//! nothing.

ghost use Rattle.std.specs.Prelude.{◌≡◌, ◌↔◌, ℕ, Bool, true, false, Option, Some};
ghost use Rattle.r4_base.specs.Tree.{Holds, Node, Store, Root};
ghost use Rattle.r4_base.specs.Value.{Content, Value};
ghost use Rattle.r4_base.specs.Volume.{HasUnits};
ghost use Rattle.r4_cell.specs.Patch.{Patch, place, root_after, IsChange, IsPatch, join};
ghost use Rattle.r4_cell.specs.declared.change.Change.{Change};
ghost use Rattle.r4_patch.specs.Joining.{patch_of_change};
ghost use Rattle.r4_patch.specs.Part.{IsPart, MeetsPart};
ghost use Rattle.r4_patch.specs.Effect.{Affects, HasEffect, IsHeld, IsSetAt, Placed, UnitIn, either, later};
ghost use Rattle.r4_patch.specs.Following.{AreInTurn, Follows, IsFollowed};

/// A patch over another, on a part of a tree, is one patch of the part with both effects.
pub fn changes_follow()
    ensures patch { (p q : Patch Value) (t : Store Value) (root : Root)
        → Follows p q t root → IsPatch (join p q) }
    ensures meets { (p q : Patch Value) (t : Store Value) (root : Root)
        → Follows p q t root → MeetsPart (join p q) t root }
    ensures cells { (p q : Patch Value) (t : Store Value) (root : Root)
        → MeetsPart p t root → place (join p q) t ≡ place q (place p t) }
    ensures root { (p q : Patch Value) (root : Root)
        → root_after (join p q) root ≡ root_after q (root_after p root) }
{}

/// In a part of a tree one cell holds a key. What the new cells of a patch hold, its old cells held.
pub fn one_cell_holds_a_key()
    ensures one { (t : Store Value) (root : Root) (k i j : ℕ) (c d : Node Value) → IsPart t root
        → t i ≡ Some c → t j ≡ Some d → Holds c k → Holds d k → i ≡ j }
    ensures before { (p : Patch Value) (t : Store Value) (root : Root) (k : ℕ) → IsPart t root
        → IsPatch p → MeetsPart p t root → IsHeld p.new k → IsHeld p.old k }
{}

/// A patch with an effect on units has it in every part that it is put into, whatever else stands there; and one after
/// another, the effects follow.
pub fn effects_follow()
    ensures changed { (p : Patch Value) (t : Store Value) (root : Root) (at : ℕ → Bool)
        (to : ℕ → Option (Placed Value)) (k : ℕ) (u : Placed Value) → Affects p t root at to
        → at k ≡ true → UnitIn (place p t) k u ↔ (to k ≡ Some u) }
    ensures others { (p : Patch Value) (t : Store Value) (root : Root) (at : ℕ → Bool)
        (to : ℕ → Option (Placed Value)) (k : ℕ) (u : Placed Value) → Affects p t root at to
        → at k ≡ false → UnitIn (place p t) k u ↔ UnitIn t k u }
    ensures content { (p : Patch Value) (t : Store Value) (root : Root) (at : ℕ → Bool)
        (to : ℕ → Option (Placed Value)) (m n : Content) → Affects p t root at to
        → HasUnits t m → IsSetAt at to m n → HasUnits (place p t) n }
    ensures follow { (p q : Patch Value) (t : Store Value) (root : Root) (a b : ℕ → Bool)
        (f g : ℕ → Option (Placed Value)) → Follows p q t root → HasEffect p a f
        → HasEffect q b g → HasEffect (join p q) (either a b) (later b g f) }
{}

/// A change of what another one leaves of a part of a tree: both as one are a change of the part, and it does what the first
/// and then the second do.
pub fn followed_change()
    ensures change { (one two c : Change) (t : Store Value) (root : Root)
        → AreInTurn one two t root → IsFollowed one two c → IsChange c.old c.new c.root }
    ensures meets { (one two c : Change) (t : Store Value) (root : Root)
        → AreInTurn one two t root → IsFollowed one two c → MeetsPart (patch_of_change c) t root }
    ensures patch { (one two c : Change) (t : Store Value) (root : Root)
        → AreInTurn one two t root → IsFollowed one two c
        → patch_of_change c ≡ join (patch_of_change one) (patch_of_change two) }
    ensures cells { (one two c : Change) (t : Store Value) (root : Root)
        → AreInTurn one two t root → IsFollowed one two c → place (patch_of_change c) t
        ≡ place (patch_of_change two) (place (patch_of_change one) t) }
    ensures root { (one two c : Change) (t : Store Value) (root : Root)
        → AreInTurn one two t root → IsFollowed one two c → root_after (patch_of_change c) root
        ≡ root_after (patch_of_change two) (root_after (patch_of_change one) root) }
{}

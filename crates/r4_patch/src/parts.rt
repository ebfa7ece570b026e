//! Laws of parts of a tree. Each is the contract of a function that does nothing.

ghost use Rattle.std.specs.Prelude.{◌≡◌, ◌≤◌, ℕ, Bool, IsTrue, Contains, Some};
ghost use Rattle.r4_base.specs.Tree.{Name, Span, Node, Store, Root, InNode, InSpan, IsTree};
ghost use Rattle.r4_base.specs.Value.{Value};
ghost use Rattle.r4_cell.specs.Patch.{Patch, place, root_after, IsPatch, Meets, Apart, IsChange};
ghost use Rattle.r4_cell.specs.declared.change.Change.{Change};
ghost use Rattle.r4_patch.specs.Joining.{patch_of_change, AreApart, IsJoined};
ghost use Rattle.r4_patch.specs.Part.{IsPart, IsWhole, IsClosed, IsUnnamed, MeetsPart, AreOfOnePart, cut};

/// In a part no key lies in two cells of one level, the data blocks aside, nor in a leaf and an extent; each data block is
/// named by a twig; and a cell that is there is named once.
pub fn part_law()
    ensures apart { (t : Store Value) (root : Root) → IsPart t root → (i j : ℕ) (c d : Node Value) (k : ℕ) → t i ≡ Some c → t j ≡ Some d → c.level ≡ d.level → 1 ≤ c.level → InNode c k → InNode d k → i ≡ j }
    ensures leaf_or_extent { (t : Store Value) (root : Root) → IsPart t root → (i j : ℕ) (c d : Node Value) (s : Span) (k : ℕ) → t i ≡ Some c → t j ≡ Some d → c.level ≡ 1 → Contains d.spans s → InNode c k → InSpan s k → ⊥ }
    ensures data_named { (t : Store Value) (root : Root) → IsPart t root → (i : ℕ) (c : Node Value) → t i ≡ Some c → c.level ≡ 0 → (j : ℕ) × (d : Node Value) × (n : Name) × (t j ≡ Some d) × Contains d.names n × (n.id ≡ i) }
    ensures named_once { (t : Store Value) (root : Root) → IsPart t root → (i j a : ℕ) (c d x : Node Value) (n m : Name) → t i ≡ Some c → t j ≡ Some d → Contains c.names n → Contains d.names m → t a ≡ Some x → n.id ≡ a → m.id ≡ a → (i ≡ j) × (n ≡ m) }
{}

/// A tree is a part of itself, and so are its cells in a set that has the root and, with each cell, those that name it. A
/// part that has what its cells name is a tree.
pub fn trees_and_parts()
    ensures tree { (t : Store Value) (root : Root) → IsTree t root → IsPart t root }
    ensures kept { (t : Store Value) (root : Root) (keep : ℕ → Bool) → IsPart t root → IsTrue (keep root.id) → IsClosed keep t → IsPart (cut keep t) root }
    ensures whole { (t : Store Value) (root : Root) → IsPart t root → IsWhole t → IsTree t root }
    ensures meets { (p : Patch Value) (t : Store Value) (root : Root) → IsTree t root → Meets p t root → MeetsPart p t root }
{}

/// A part with a patch in place is again a part, where no cell that is there names a new cell that is no old one. After it
/// a second patch with no node in common can still be put in place.
pub fn placing_keeps_a_part()
    ensures part { (p : Patch Value) (t : Store Value) (root : Root) → IsPatch p → IsPart t root → MeetsPart p t root → IsPart (place p t) (root_after p root) }
    ensures second { (p q : Patch Value) (t : Store Value) (root : Root) → IsPatch p → MeetsPart p t root → MeetsPart q t root → Apart p q → MeetsPart q (place p t) (root_after p root) }
{}

/// Two changes of one part as one change, where no node is an old cell of both or a new cell of both: it is a change of the
/// part, and it does what the first and then the second do.
pub fn joined_change_of_a_part()
    ensures change { (one two c : Change) (t : Store Value) (root : Root) → AreOfOnePart one two t root → IsJoined one two c → AreApart one.old two.old → IsChange c.old c.new c.root }
    ensures meets { (one two c : Change) (t : Store Value) (root : Root) → AreOfOnePart one two t root → IsJoined one two c → AreApart one.old two.old → Meets (patch_of_change c) t root }
    ensures unnamed { (one two c : Change) (t : Store Value) (root : Root) → AreOfOnePart one two t root → IsJoined one two c → AreApart one.old two.old → IsUnnamed (patch_of_change one) t → IsUnnamed (patch_of_change two) t → IsUnnamed (patch_of_change c) t }
    ensures cells { (one two c : Change) (t : Store Value) (root : Root) → AreOfOnePart one two t root → IsJoined one two c → AreApart one.old two.old → place (patch_of_change c) t ≡ place (patch_of_change two) (place (patch_of_change one) t) }
    ensures root { (one two c : Change) (t : Store Value) (root : Root) → AreOfOnePart one two t root → IsJoined one two c → AreApart one.old two.old → root_after (patch_of_change c) root ≡ root_after (patch_of_change two) (root_after (patch_of_change one) root) }
{}

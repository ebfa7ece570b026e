//! Laws of what is reached. Each is the contract of a function that does nothing.

ghost use Rattle.std.specs.Prelude.{◌≡◌, ◌↔◌, ℕ, Bool, ◌<◌, ◌≤◌, ◌++◌, All, Contains, List, Option, Some};
ghost use Rattle.r4_content.specs.Edited.{Pairs};
ghost use Rattle.r4_content.specs.declared.command.Command.{Command};
ghost use Rattle.r4_content.specs.Edited.{Edits, Intervals};
ghost use Rattle.r4_reach.specs.Alike.{AreTreesAlike, AsksAbove, IsOfOthers, SharesReach};
ghost use Rattle.r4_reach.specs.Enough.{IsLongEnough, Numbered};
ghost use Rattle.r4_reach.specs.Needs.{Ask, demand_of, demand_on};
ghost use Rattle.r4_reach.specs.Touched.{Body};
ghost use Rattle.r4_reach.specs.Answer.{HasAll, IsReachOf};
ghost use Rattle.r4_base.specs.Value.{Content};
ghost use Rattle.r4_base.specs.Volume.{HasUnits};
ghost use Rattle.r4_path.specs.r4_cell.Patch.{by_name, root_of_pair};
ghost use Rattle.r4_path.specs.r4_cell.Seen.{CellSeen};
ghost use Rattle.r4_path.specs.r4_cell.declared.change.Root.{Root as RootPair};
ghost use Rattle.r4_content.specs.Meaning.{greatest_size};
ghost use Rattle.r4_content.specs.Seen.{IsSeen};
ghost use Rattle.r4_base.specs.Key.{least, top};
ghost use Rattle.r4_base.specs.Tree.{Holds, IsTree, Node, Root, Store, UnitAt};
ghost use Rattle.r4_base.specs.Value.{Value};
ghost use Rattle.r4_path.specs.r4_cell.Patch.{Patch, place, root_after};
ghost use Rattle.r4_path.specs.r4_patch.Part.{IsPart};
ghost use Rattle.r4_reach.specs.Demand.{Demand, IsPlain};
ghost use Rattle.r4_reach.specs.Reach.{HasReached, HasTouched, IsReached, IsRead, IsRootAsking, IsWritten, Touches};

/// What is reached rests on the cells that are reached alone: another tree, or part of one, that has them has the
/// same reach.
pub fn reach_rests_on_its_cells<A>()
    ensures written { (d : Demand A) (t u : Store Value) (root other : Root) (i : ℕ)
        → SharesReach d t u root other → IsWritten d t i ↔ IsWritten d u i }
    ensures read { (d : Demand A) (t u : Store Value) (root other : Root) (i : ℕ)
        → SharesReach d t u root other → IsRead d t i ↔ IsRead d u i }
    ensures root { (d : Demand A) (t u : Store Value) (root other : Root) (a : A)
        → SharesReach d t u root other → IsRootAsking d t root a ↔ IsRootAsking d u other a }
{}

/// A tree has all that is touched. Each key that is touched is held by a cell that is reached, in a tree and in each
/// part that has what is touched; so two trees that have what is reached in one of them have the same values there.
pub fn touched_keys_are_held<A>()
    ensures whole { (d : Demand A) (t : Store Value) (root : Root)
        → IsPlain d → IsTree t root → HasTouched d t }
    ensures held { (d : Demand A) (t : Store Value) (root : Root) (k : ℕ) → IsPart t root
        → HasTouched d t → Touches d k → least ≤ k → k < top
        → (i : ℕ) × (c : Node Value) × (t i ≡ Some c) × Holds c k × IsReached d t i }
    ensures units { (d : Demand A) (t u : Store Value) (root other : Root) (k : ℕ) (v : Value)
        → AreTreesAlike d t u root other → Touches d k → UnitAt t k v ↔ UnitAt u k v }
{}

/// What is reached in a tree with a change in place is what is reached without it, where the change has none of these
/// cells.
pub fn reach_is_the_same_without_others<A>()
    ensures cells { (d : Demand A) (q : Patch Value) (u : Store Value) (root : Root)
        → IsOfOthers d q u root → HasReached d (place q u) u }
    ensures written { (d : Demand A) (q : Patch Value) (u : Store Value) (root : Root) (i : ℕ)
        → IsOfOthers d q u root → IsWritten d (place q u) i ↔ IsWritten d u i }
    ensures read { (d : Demand A) (q : Patch Value) (u : Store Value) (root : Root) (i : ℕ)
        → IsOfOthers d q u root → IsRead d (place q u) i ↔ IsRead d u i }
    ensures root { (d : Demand A) (q : Patch Value) (u : Store Value) (root : Root) (a : A)
        → IsOfOthers d q u root
        → IsRootAsking d (place q u) (root_after q root) a ↔ IsRootAsking d u root a }
{}

/// What a command asks of a tree is plain, so that these laws speak of it.
pub fn commands_ask_plainly()
    ensures { (c : Command) (s : Pairs) (in_extents : Bool) → IsPlain (demand_on c s in_extents) }
{}

/// The cells that are written above one that asks for room suffice for the pointers to what comes beside it: the
/// nearest one has room, or is parted in two and the next one has, up to a root below level 8. So it is where no
/// blocks come and no pieces of the twigs on the way change.
pub fn written_cells_suffice()
    ensures { (b : Option Body) (e : Edits) (reads rs : Intervals) (t : Store Value) (root : Root)
        (c : Numbered) (ups : List Numbered) (a : Ask) (come : ℕ)
        → AsksAbove b e reads rs t root c ups a → come ≤ a.more
        → (near rest : List Numbered) × (ups ≡ near ++ rest)
        × All (λ (x : Numbered). IsWritten (demand_of b e reads rs) t x.0) near
        × IsLongEnough root come c near }
{}

/// In a tree that has the cells which were met, what is reached is the answer. In one that has
/// those that are read and written, the keys that the command touches have the same units, and what
/// was seen is what the command asks of the tree's content.
pub fn answers_hold_in_the_tree()
    ensures units { (root : RootPair) (c : Command) (met reads writes : List CellSeen)
        (rises : Option RootPair) (h : IsReachOf root c met reads writes rises)
        (u : Store Value) (other : Root) (k : ℕ) (v : Value) → IsTree u other
        → HasReached (demand_on c h.seen h.in_extents) (by_name met) u
        → Touches (demand_on c h.seen h.in_extents) k → UnitAt (by_name met) k v ↔ UnitAt u k v }
    ensures seen { (root : RootPair) (c : Command) (met reads writes : List CellSeen)
        (rises : Option RootPair) (h : IsReachOf root c met reads writes rises)
        (u : Store Value) (other : Root) (m : Content) → IsTree u other
        → HasReached (demand_on c h.seen h.in_extents) (by_name met) u
        → HasUnits u m → IsSeen greatest_size c h.seen m }
    ensures written { (root : RootPair) (c : Command) (met reads writes : List CellSeen)
        (rises : Option RootPair) (h : IsReachOf root c met reads writes rises)
        (u : Store Value) (x : CellSeen) → IsTree u (root_of_pair root) → HasAll met u
        → Contains writes x
        ↔ (Contains met x × IsWritten (demand_on c h.seen h.in_extents) u x.id) }
    ensures read { (root : RootPair) (c : Command) (met reads writes : List CellSeen)
        (rises : Option RootPair) (h : IsReachOf root c met reads writes rises)
        (u : Store Value) (x : CellSeen) → IsTree u (root_of_pair root) → HasAll met u
        → Contains reads x
        ↔ (Contains met x × IsRead (demand_on c h.seen h.in_extents) u x.id) }
{}

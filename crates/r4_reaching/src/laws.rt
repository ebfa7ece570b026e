//! Laws of the cells that were met for a command. Each is the contract of a function that does nothing.

ghost use Rattle.std.specs.Prelude.{◌≡◌, ◌↔◌, ℕ, ◌<◌, ◌≤◌, List, Option, Some, map, true};
ghost use Rattle.std.specs.Arc.{arc_value};
ghost use Rattle.std.specs.FinMap.{find};
ghost use Rattle.std.specs.Ordering.{nat_cmp};
ghost use Rattle.r4_base.specs.Key.{least, top};
ghost use Rattle.r4_base.specs.Tree.{Root, Store, UnitAt};
ghost use Rattle.r4_base.specs.Value.{Value};
ghost use Rattle.r4_cell.specs.Patch.{by_name, root_of_pair};
ghost use Rattle.r4_cell.specs.Seen.{CellSeen};
ghost use Rattle.r4_cell.specs.declared.change.Root.{Root as RootPair};
ghost use Rattle.r4_content.specs.Edited.{Intervals, Pairs, is_in};
ghost use Rattle.r4_content.specs.Held.{edits_of};
ghost use Rattle.r4_content.specs.declared.command.Command.{Command};
ghost use Rattle.r4_content.specs.declared.edits.Edits.{Edits as HeldEdits};
ghost use Rattle.r4_content.specs.declared.edits.Interval.{Interval};
ghost use Rattle.r4_content.specs.declared.seen.Seen.{Seen};
ghost use Rattle.r4_judging.specs.Judging.{HangTogether};
ghost use Rattle.r4_bodies.specs.r4_leaf_demands.Leaves.{leaf_demand};
ghost use Rattle.r4_judging.specs.r4_marking.Marks.{AreMarksOf, AreMet};
ghost use Rattle.r4_judging.specs.r4_marking.declared.marking.Marks.{Marks};
ghost use Rattle.r4_touching.specs.r4_patch.Part.{IsPart};
ghost use Rattle.r4_touching.specs.r4_reach.Demand.{Demand};
ghost use Rattle.r4_touching.specs.r4_reach.Leaves.{more_in};
ghost use Rattle.r4_touching.specs.r4_reach.Reach.{HasTouched};
ghost use Rattle.r4_search.specs.Pool.{Goes, PoolState};
ghost use Rattle.r4_touching.specs.r4_seeing.Looking.{AreFound, AreHung, met_cells};
ghost use Rattle.r4_spared.specs.r4_work.Order.{AreInOrder};
ghost use Rattle.r4_reaching.specs.Answers.{AreReadKeys, IsFrom, IsReach, IsTouched};
ghost use Rattle.r4_reaching.specs.Gathering.{AreAllMet, IsPartMet};
ghost use Rattle.r4_reaching.specs.Reaching.{IsSeenPart, StaysInLeaves};
ghost use Rattle.r4_reaching.specs.declared.reached.Reach.{Reach};

/// What was found in cells that a pool had met is found in them still, however many it has met since then.
pub fn what_was_found_stays()
    ensures { (p q : PoolState) (known : Intervals) (s : Pairs) → Goes p q
        → AreFound (met_cells p) known s → AreFound (met_cells q) known s }
{}

/// Where the cells that were met are a part of a tree, and each key of a tree that was asked for is known, what was
/// seen at a key that was asked for is just the unit that stands there, or none does.
pub fn what_was_seen_stands()
    ensures { (t : Store Value) (root : Root) (known asked : Intervals) (s : Pairs)
        → IsSeenPart t root known s
        → ((k : ℕ) → is_in asked k ≡ true → least ≤ k → k < top → is_in known k ≡ true)
        → (k : ℕ) (v : Value) → is_in asked k ≡ true
        → (find nat_cmp k s ≡ Some v) ↔ UnitAt t k v }
{}

/// Where the keys that are read are known or in leaves, and those that change are in leaves, and no twig turns, the
/// cells are there that hold what is touched.
pub fn touched_cells_were_met<A>()
    ensures { (d : Demand A) (t : Store Value) (root : Root) (known : Intervals) (s : Pairs)
        → IsSeenPart t root known s → StaysInLeaves d t known → HasTouched d t }
{}

/// All cells that were met, as a list: they are the same part of a tree, by name. Where what was
/// met hangs together with the root, and something was met, they hang together; and in order they
/// are as `mark` takes them, where they are a part of a tree.
pub fn what_was_met_is_listed()
    ensures store { (p : PoolState) (root : RootPair) (cells : List CellSeen) → AreHung p root
        → AreAllMet p.met cells → (i : ℕ) → by_name cells i ≡ met_cells p i }
    ensures hangs { (p : PoolState) (root : RootPair) (cells : List CellSeen) (some : CellSeen)
        → AreHung p root → AreAllMet p.met cells → 2 ≤ root.height
        → p.met some.id ≡ Some some → HangTogether root cells }
    ensures ordered { (p : PoolState) (root : RootPair) (cells : List CellSeen)
        → AreAllMet p.met cells → AreInOrder cells
        → IsPart (by_name cells) (root_of_pair root) → AreMet cells (root_of_pair root) }
{}

/// Where all keys of a command that have to lie in leaves do so in the cells that were met, which are a part of a tree,
/// the marks of these by the command's edits and the keys that it reads are its reach.
pub fn marked_cells_are_a_reach()
    ensures { (p : PoolState) (root : RootPair) (c : Command) (seen : Seen)
        (known questions : Intervals) (e : HeldEdits) (read : Option Interval)
        (met : List CellSeen) (held : Intervals) (m : Marks) (r : Reach)
        → IsTouched p root c seen known questions e read → IsPartMet p root met
        → AreReadKeys held questions read
        → AreMarksOf (leaf_demand (edits_of e) held) met (root_of_pair root) m
        → m.more ≡ more_in (leaf_demand (edits_of e) held) (by_name met)
        (map (λ x. arc_value x) m.writes.items)
        → IsFrom root seen met m r → IsReach p root c r }
{}

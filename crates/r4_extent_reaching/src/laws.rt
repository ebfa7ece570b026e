//! Laws of the cells that were met for a command, bodies in extents included. Each is the contract of a function that
//! does nothing.

ghost use Rattle.std.specs.Prelude.{◌≡◌, ℕ, ◌<◌, ◌≤◌, List, Option, Some, map, true};
ghost use Rattle.std.specs.Arc.{arc_value};
ghost use Rattle.r4_base.specs.Key.{least, top};
ghost use Rattle.r4_base.specs.Tree.{Root};
ghost use Rattle.r4_reaching.specs.r4_cell.Patch.{by_name, root_of_pair};
ghost use Rattle.r4_reaching.specs.r4_cell.Seen.{CellSeen};
ghost use Rattle.r4_reaching.specs.r4_cell.declared.change.Root.{Root as RootPair};
ghost use Rattle.r4_content.specs.Edited.{Intervals, is_in};
ghost use Rattle.r4_content.specs.Held.{edits_of};
ghost use Rattle.r4_content.specs.declared.command.Command.{Command};
ghost use Rattle.r4_content.specs.declared.seen.Seen.{Seen};
ghost use Rattle.r4_extent_touching.specs.r4_marking.Marks.{AreMarks, AreMarksOf};
ghost use Rattle.r4_extent_touching.specs.r4_marking.declared.marking.Marks.{Marks};
ghost use Rattle.r4_reaching.specs.r4_patch.Part.{IsPart};
ghost use Rattle.r4_reaching.specs.r4_reach.Demand.{Demand};
ghost use Rattle.r4_reaching.specs.r4_reach.Leaves.{more_in};
ghost use Rattle.r4_reaching.specs.r4_reach.Needs.{Ask, demand_of};
ghost use Rattle.r4_reaching.specs.r4_reach.Touched.{Body, IsKindIn, raw_changes, shown_at};
ghost use Rattle.r4_reaching.specs.Gathering.{IsPartMet};
ghost use Rattle.r4_reaching.specs.r4_search.Pool.{Goes, PoolState};
ghost use Rattle.r4_reaching.specs.r4_seeing.Looking.{met_cells};
ghost use Rattle.r4_extent_reaching.specs.Answers.{IsReach};
ghost use Rattle.r4_extent_reaching.specs.Alike.{AreAlike};
ghost use Rattle.r4_extent_reaching.specs.Meeting.{AreReadKeys, IsFrom, IsTouched, Planned};
ghost use Rattle.r4_extent_reaching.specs.Standing.{HasFileSizes};
ghost use Rattle.r4_extent_reaching.specs.Telling.{IsKindTold};
ghost use Rattle.r4_extent_reaching.specs.Within.{AreOneBody};
ghost use Rattle.r4_extent_reaching.specs.declared.reached.Reach.{Reach};

/// Demands that agree on the keys of a tree, and on each cell of a part of one, mark the same of its cells.
pub fn alike_demands_mark_alike()
    ensures { (d f : Demand Ask) (met : List CellSeen) (root : Root) (rs ws : List CellSeen)
        (rises : Option Ask) → IsPart (by_name met) root → AreAlike d f (by_name met)
        → AreMarks d met root rs ws rises → AreMarks f met root rs ws rises }
{}

/// Where the cells were met that hold all keys which a command touches, and the leaves beside each twig that turns,
/// the marks of these by its body, its edits and the keys that it reads and changes are its reach.
pub fn marked_cells_are_a_reach()
    ensures { (p : PoolState) (root : RootPair) (c : Command) (seen : Seen)
        (known questions : Intervals) (n : Planned) (met : List CellSeen) (held : Intervals)
        (m : Marks) (r : Reach)
        → IsTouched p root c seen known questions n → IsPartMet p root met
        → AreReadKeys held questions n.body
        → AreMarksOf (demand_of n.body (edits_of n.edits) held n.changes) met (root_of_pair root) m
        → m.more ≡ more_in (demand_of n.body (edits_of n.edits) held n.changes) (by_name met)
        (map (λ x. arc_value x) m.writes.items)
        → IsFrom root seen n met m r → IsReach p root c r }
{}

/// Where a body's key told where it stands, and what was met from then on is a part of a tree with that, it stands so
/// there.
pub fn told_kinds_are_so()
    ensures { (p q : PoolState) (root : RootPair) (met : List CellSeen) (b : Body) → Goes p q
        → IsPartMet q root met → IsKindTold p (shown_at b) b.in_extents
        → IsKindIn (met_cells q) (Some b) }
{}

/// Where the keys that change are keys of a tree, and lie in one body, all that count as changed are keys of a tree; the
/// body has no more bytes than a file may have.
pub fn changes_stay_in_trees()
    ensures { (b : Body) (rs : Intervals) → HasFileSizes (Some b) → AreOneBody b rs → (k : ℕ)
        → is_in (raw_changes (Some b) rs) k ≡ true → (least ≤ k) × (k < top) }
{}

//! The law of cells that were met. It is the contract of a function that does nothing.

ghost use Rattle.std.specs.Prelude.{◌≡◌, List, All, None};
ghost use Rattle.r4_cell.specs.Patch.{by_name, root_of_pair};
ghost use Rattle.r4_cell.specs.Seen.{CellSeen};
ghost use Rattle.r4_cell.specs.declared.change.Root.{Root};
ghost use Rattle.r4_marking.specs.r4_patch.Part.{IsPart};
ghost use Rattle.r4_judging.specs.Judging.{HangTogether, IsJudged, IsSound, all_names};

/// Cells that hang together from the root are a part of a tree, where none of them names another one with another level
/// or range.
pub fn what_was_met_is_a_part()
    ensures { (root : Root) (met : List CellSeen) → HangTogether root met → All IsSound met
        → IsJudged (all_names met) met None → IsPart (by_name met) (root_of_pair root) }
{}

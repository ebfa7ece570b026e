//! How two lists of cells differ.

ghost use Rattle.std.specs.Prelude.{◌≡◌, ◌↔◌, ◌==◌, ◌&&◌, ◌||◌, IfSome, IsTrue, List, MatchOption};
ghost use Rattle.std.specs.Prelude.{[], drop, nat_lt};
ghost use Rattle.std.specs.Option.{option_map};
ghost use Rattle.r4_base.specs.Key.{rank};
ghost use Rattle.r4_cell.specs.Seen.{CellSeen};
ghost use Rattle.r4_matching.specs.Matching.{DifferBy, DifferNowhere, IsFirstDifference};
ghost use Rattle.r4_matching.specs.Matching.{cell_named};
ghost use Rattle.r4_matching.specs.Nearest.{IsFound, IsMerged, IsNearer, IsSettled};

use crate::cells::{Differs, difference, is_same};
use r4_base::NodeId;
use r4_cell::{Cell, Cells};

// Whether the two lists have the same cells, one after another.
pub(crate) fn are_same(cells: &Cells, others: &Cells) -> bool
    ensures { IsTrue result ↔ (cells.now ≡ others.now) }
{
    let (cells, others) = (cells.as_slice(), others.as_slice());
    if cells.len() != others.len() {
        return false;
    }
    for i in 0..cells.len() {
        if !is_same(&cells[i], &others[i]) {
            return false;
        }
    }
    true
}

// The cells that a task reads or writes, and those that were kept for it.
#[derive(Clone, Copy)]
pub(crate) struct Lists<'a> {
    pub had: &'a Cells,
    pub has: &'a Cells,
}

// How far the two lists were gone through, and the smallest node with a difference that was found.
#[derive(Clone, Copy)]
struct Merged {
    had: usize,
    has: usize,
    first: Option<(NodeId, Differs)>,
}

impl Lists<'_> {
    // The smallest node at which the lists differ, and how they differ there.
    pub(crate) fn first_difference(&self) -> Option<(NodeId, Differs)>
        ensures { MatchOption result
            (DifferNowhere self.now.had.now self.now.has.now)
            (λ d. IsFirstDifference self.now.had.now self.now.has.now d.0.0 d.1) }
    {
        let merged = self.merge();
        let first = self.nearest(merged.first, self.had, merged.had);
        self.nearest(first, self.has, merged.has)
    }

    // Goes through both lists side by side, until one is at its end. Of two cells that are the same
    // none is looked up, of two others the one that stands first.
    fn merge(&self) -> Merged
        ensures found { IsFound self.now.had.now self.now.has.now result.first }
        ensures merged { IsMerged self.now.had.now self.now.has.now result.first
            (drop result.had self.now.had.now) (drop result.has self.now.has.now) }
    {
        let (had, has) = (self.had.as_slice(), self.has.as_slice());
        let mut merged = Merged {
            had: 0,
            has: 0,
            first: None,
        };
        while merged.had < had.len() && merged.has < has.len() {
            let (mine, kept) = (&had[merged.had], &has[merged.has]);
            if is_same(mine, kept) {
                merged.had += 1;
                merged.has += 1;
            } else if is_before(mine, kept) {
                merged.first = self.nearer(merged.first, mine.id());
                merged.had += 1;
            } else {
                merged.first = self.nearer(merged.first, kept.id());
                merged.has += 1;
            }
        }
        merged
    }

    // The nearest of what was found and of the nodes of these cells at which the lists differ, from
    // a place on.
    fn nearest(
        &self,
        found: Option<(NodeId, Differs)>,
        cells: &Cells,
        from: usize,
    ) -> Option<(NodeId, Differs)>
        ensures found { IsFound self.now.had.now self.now.has.now found
            → IsFound self.now.had.now self.now.has.now result }
        ensures merged { (others : List CellSeen)
            → IsMerged self.now.had.now self.now.has.now found (drop from cells.now) others
            → IsMerged self.now.had.now self.now.has.now result [] others }
    {
        let cells = cells.as_slice();
        let mut first = found;
        for i in from..cells.len() {
            first = self.nearer(first, cells[i].id());
        }
        first
    }

    // The nearer of what was found and of a node, if the lists differ there.
    fn nearer(&self, found: Option<(NodeId, Differs)>, node: NodeId) -> Option<(NodeId, Differs)>
        ensures nearer { IsNearer self.now.had.now self.now.has.now found result }
        ensures settled { IsSettled self.now.had.now self.now.has.now result node.0 }
    {
        if let Some((first, _)) = found
            && first <= node
        {
            return found;
        }
        match self.difference_at(node) {
            Some(differs) => Some((node, differs)),
            None => found,
        }
    }

    // How the lists differ at a node.
    fn difference_at(&self, node: NodeId) -> Option<Differs>
        ensures { let had = cell_named node.0 self.now.had.now in
            let has = cell_named node.0 self.now.has.now in
            MatchOption result (had ≡ has) (DifferBy had has) }
    {
        match (cell_at(self.had, node), cell_at(self.has, node)) {
            (None, None) => None,
            (Some(had), Some(has)) => difference(had, has),
            _ => Some(Differs::Missing),
        }
    }
}

// The first of these cells that has this name.
fn cell_at(cells: &Cells, node: NodeId) -> Option<&Cell>
    ensures cell { option_map (λ c. c.now) result ≡ cell_named node.0 cells.now }
    ensures name { IfSome result (λ c. c.now.id ≡ node.0) }
{
    for cell in cells.as_slice() {
        if cell.id() == node {
            return Some(cell);
        }
    }
    None
}

// Whether a cell stands before another one in the order of cells that commands reach: by level, and
// then by first key. For lists in another order the answers are the same, and take longer.
fn is_before(cell: &Cell, other: &Cell) -> bool
    ensures { result ≡ (nat_lt cell.now.level other.now.level
        || (cell.now.level == other.now.level
        && nat_lt (rank cell.now.lo) (rank other.now.lo))) }
{
    cell.level() < other.level()
        || (cell.level() == other.level() && cell.lo().is_below(other.lo()))
}

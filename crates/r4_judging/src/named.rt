//! What one pointer names, or one unit of an extent, among the cells that were met.

ghost use Rattle.std.specs.Prelude.{◌≡◌, ℕ, ◌+◌, ◌<◌, ◌≤◌, ◌↔◌, [], ◌∷◌, map, nat_lt, Contains};
ghost use Rattle.std.specs.Arc.{arc_value};
ghost use Rattle.std.specs.List.Sorted.{IsNonDecreasingBy};
ghost use Rattle.r4_base.specs.Tree.{Name};
ghost use Rattle.r4_cell.specs.Seen.{CellSeen};
ghost use Rattle.r4_search.specs.Pool.{place_fault};
ghost use Rattle.r4_judging.specs.Judging.{FitKeys, IsJudged, names_meant, number_count};
ghost use Rattle.r4_judging.specs.Judging.{number_from};

use crate::misfit::{Misfit, first_of};
use r4_base::{BLOCK_BYTES, BlockNo, CellFault, Key};
use r4_cell::Cell;
use r4_search::{Child as Node, fault_of_place};
use r4_sight::key_after;
use std::sync::Arc;

/// What a pointer names; or so many blocks from a number on, the first of them with this first key.
#[derive(Clone, Copy)]
pub(crate) enum Named {
    Child(Node),
    Blocks(u64, u64, Key),
}

impl Named {
    // The first number.
    fn from(&self) -> u64
        ensures { result ≡ number_from self.now }
    {
        match self {
            Named::Child(child) => child.id.0,
            Named::Blocks(start, _, _) => *start,
        }
    }

    // How many numbers there are.
    fn count(&self) -> u64
        ensures { result ≡ number_count self.now }
    {
        match self {
            Named::Child(_) => 1,
            Named::Blocks(_, count, _) => *count,
        }
    }

    // Why the cell with one of its numbers is not the one that is meant.
    fn fault_of(&self, cell: &Cell) -> Option<CellFault>
        requires keys { FitKeys self.now }
        requires from { number_from self.now ≤ cell.now.id }
        requires below { cell.now.id < number_from self.now + number_count self.now }
        ensures { (n : Name) → Contains (names_meant self.now) n → n.id ≡ cell.now.id
            → result ≡ place_fault n cell.now }
    {
        match self {
            Named::Child(child) => fault_of_place(cell, child.level, child.lo, child.hi),
            Named::Blocks(start, _, first) => {
                let lo = first.behind((cell.id().0 - *start) * BLOCK_BYTES);
                fault_of_place(cell, 0, lo, key_after(lo, BLOCK_BYTES))
            }
        }
    }

    // The cell with one of its numbers, where it is not the one that is meant.
    fn misfit_at(&self, cell: &Cell) -> Option<Misfit>
        requires keys { FitKeys self.now }
        requires from { number_from self.now ≤ cell.now.id }
        requires below { cell.now.id < number_from self.now + number_count self.now }
        ensures { IsJudged (names_meant self.now) (cell.now ∷ []) result }
    {
        let fault = self.fault_of(cell)?;
        Some(Misfit {
            block: BlockNo(cell.id().0),
            level: cell.level(),
            lo: cell.lo(),
            fault,
        })
    }

    /// The first cell with one of its numbers that is not the one that is meant. The cells stand by their numbers.
    pub fn misfit(&self, cells: &[Arc<Cell>]) -> Option<Misfit>
        requires keys { FitKeys self.now }
        requires order { IsNonDecreasingBy (λ c. c.id) (map (λ c. arc_value c) cells.now) }
        ensures { IsJudged (names_meant self.now) (map (λ c. arc_value c) cells.now) result }
    {
        let near = numbered(cells, self.from(), self.count());
        let mut found = None;
        for cell in near {
            found = first_of(found, self.misfit_at(cell));
        }
        found
    }
}

// The cells with so many numbers from one on. The cells stand by their numbers.
fn numbered(cells: &[Arc<Cell>], from: u64, count: u64) -> &[Arc<Cell>]
    requires { IsNonDecreasingBy (λ c. c.id) (map (λ c. arc_value c) cells.now) }
    ensures { (c : CellSeen) → Contains (map (λ c. arc_value c) result.now) c
        ↔ (Contains (map (λ c. arc_value c) cells.now) c × (from ≤ c.id) × (c.id < from + count)) }
{
    let (_, rest) = cells.split_at(cells.partition_point(|c| c.id().0 < from));
    let (near, _) = rest.split_at(rest.partition_point(|c| is_within(c, from, count)));
    near
}

// Whether the number of a cell is below the end of so many from one on.
fn is_within(cell: &Cell, from: u64, count: u64) -> bool
    ensures { result ≡ nat_lt cell.now.id (from + count) }
{
    cell.id().0 < from || cell.id().0 - from < count
}

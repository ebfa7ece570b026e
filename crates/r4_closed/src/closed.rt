//! Whether cells name each other.

ghost use Rattle.std.specs.Prelude.{◌↔◌, All, Contains, IfOk, IsTrue, MatchBool, map};
ghost use Rattle.std.specs.List.Sorted.{IsNonDecreasing, IsPermutation};
ghost use Rattle.std.specs.Arc.{arc_value};
ghost use Rattle.r4_cell.specs.Seen.{CellSeen};
ghost use Rattle.r4_closed.specs.Closed.{AreClosed};
ghost use Rattle.r4_closed.specs.Named.{IsCalledFor};

use crate::named::add_of_cells;
use r4_base::{Memory, NodeId, UNPLACED};
use r4_cell::Cell;
use std::alloc::Global;
use std::sync::Arc;

/// Whether the new cells that these cells name are among them, whether each new one among them, but the root's, is named
/// by one of them, and whether none of them has a unit of several blocks from 2^63 on. New are those with a number from
/// 2^63 on. The only error is want of memory. It costs the names, and sorts them (docs/core.md, "Sealing").
pub fn are_closed(alloc: Global, cells: &[Arc<Cell>], root: NodeId) -> Result<bool, Memory>
    ensures { IfOk result (λ b. MatchBool b
        (AreClosed root.0 (map (λ c. arc_value c) cells.now))
        (AreClosed root.0 (map (λ c. arc_value c) cells.now) → ⊥)) }
{
    let mut named = Vec::new(alloc);
    if !add_of_cells(cells, &mut named)? {
        return Ok(false);
    }
    named.sort_unstable();
    let ids = sorted_ids(alloc, cells)?;
    Ok(are_among(&named, &ids) && are_called_for(&ids, root, &named))
}

// The cells' numbers, rising.
fn sorted_ids(alloc: Global, cells: &[Arc<Cell>]) -> Result<Vec<u64>, Memory>
    ensures moved { IfOk result (λ v. IsPermutation (map (λ (x : CellSeen). x.id)
        (map (λ c. arc_value c) cells.now)) v.items) }
    ensures rising { IfOk result (λ v. IsNonDecreasing v.items) }
{
    let mut ids = Vec::with_capacity(alloc, cells.len())?;
    for cell in cells {
        ids.push(cell.id().0)?;
    }
    ids.sort_unstable();
    Ok(ids)
}

// Whether each of the numbers is one of these.
fn are_among(numbers: &[u64], these: &[u64]) -> bool
    requires { IsNonDecreasing these.now }
    ensures { IsTrue result ↔ All (Contains these.now) numbers.now }
{
    for number in numbers {
        if !is_among(*number, these) {
            return false;
        }
    }
    true
}

// Whether each new one of the numbers, but the root's, is named.
fn are_called_for(ids: &[u64], root: NodeId, named: &[u64]) -> bool
    requires { IsNonDecreasing named.now }
    ensures { IsTrue result ↔ All (IsCalledFor root.0 named.now) ids.now }
{
    for id in ids {
        if !is_called_for(*id, root, named) {
            return false;
        }
    }
    true
}

// Whether a number is of no new cell, or the root's, or named.
fn is_called_for(id: u64, root: NodeId, named: &[u64]) -> bool
    requires { IsNonDecreasing named.now }
    ensures { IsTrue result ↔ IsCalledFor root.0 named.now id }
{
    id < UNPLACED || id == root.0 || is_among(id, named)
}

// Whether a number is one of these.
fn is_among(number: u64, these: &[u64]) -> bool
    requires { IsNonDecreasing these.now }
    ensures { IsTrue result ↔ Contains these.now number }
{
    these.binary_search(&number).is_ok()
}

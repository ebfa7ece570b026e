//! How many new cells may come by a table (docs/volume.md, "What may still come").

ghost use Rattle.std.specs.Prelude.{◌≡◌, ◌+◌, ◌^◌, ◌≤◌, map, MatchOption};
ghost use Rattle.std.specs.Arc.{arc_value};
ghost use Rattle.r4_extent_put.specs.r4_extent_change.r4_measure.Budget.{cells_from, most_from};
ghost use Rattle.r4_extent_put.specs.r4_extent_change.r4_measure.r4_cell.Patch.{root_of_pair};
ghost use Rattle.r4_allowed.specs.Table.{budget_of};

use crate::table::{Allowance, most_of};
use r4_extent_put::{Cell, Root};
use std::sync::Arc;

/// How many cells there may be in the end by a table: these, what may come in the place of each,
/// and a new root where something may come of it. None where these are 2^64 or more
/// (docs/volume.md, "What may still come").
pub fn most_new(root: &Root, cells: &[Arc<Cell>], table: &[Allowance]) -> Option<u64>
    ensures { MatchOption result
        (2 ^ 64 ≤ most_from (budget_of table.now) (root_of_pair root.now)
        (map (λ c. arc_value c) cells.now))
        (λ n. n ≡ most_from (budget_of table.now) (root_of_pair root.now)
        (map (λ c. arc_value c) cells.now)) }
{
    let more = most_of(table, root.height, root.id).min(1);
    match all_from(cells, table) {
        Some(count) => count.checked_add(more),
        None => None,
    }
}

// The cells and what may come in the place of each.
fn all_from(cells: &[Arc<Cell>], table: &[Allowance]) -> Option<u64>
    ensures { MatchOption result
        (2 ^ 64 ≤ cells_from (budget_of table.now) (map (λ c. arc_value c) cells.now))
        (λ n. n ≡ cells_from (budget_of table.now) (map (λ c. arc_value c) cells.now)) }
{
    match cells.split_first() {
        None => Some(0),
        Some((first, rest)) => match all_from(rest, table) {
            Some(others) => with_one(most_of(table, first.level(), first.id()), others),
            None => None,
        },
    }
}

// One and these.
fn with_one(more: u64, others: u64) -> Option<u64>
    ensures { MatchOption result (2 ^ 64 ≤ 1 + more + others) (λ n. n ≡ 1 + more + others) }
{
    match more.checked_add(others) {
        Some(both) => both.checked_add(1),
        None => None,
    }
}

//! A reach, from the cells that were met and those that are read and written (docs/volume.md, "Reach").

ghost use Rattle.std.specs.Prelude.{◌≡◌, ◌↔◌, ◌+◌, Contains, IfOk, false, length, map, sum_by, true};
ghost use Rattle.std.specs.Arc.{arc_value};
ghost use Rattle.std.specs.Option.{option_copied, option_map};
ghost use Rattle.r4_base.specs.Tree.{Span};
ghost use Rattle.r4_extent_asks.specs.r4_bodies.r4_leaf_demands.Leaves.{IsInLeaves};
ghost use Rattle.r4_extent_commands.specs.r4_cell.Seen.{CellSeen, node_of};
ghost use Rattle.r4_content.specs.Held.{edits_of, interval_of};
ghost use Rattle.r4_extent_reaching.specs.r4_extent_counts.Coming.{twig_cells};
ghost use Rattle.r4_extent_asks.specs.r4_extent_demands.Sizes.{AreExtentEdits};
ghost use Rattle.r4_extent_reaching.specs.Meeting.{IsFrom, IsOfLeaves};
ghost use Rattle.r4_extent_asks.specs.r4_marking.Marks.{ask_seen};
ghost use Rattle.r4_extent_reaching.specs.r4_touching.r4_reach.Leaves.{rise_of};
ghost use Rattle.r4_extent_reaching.specs.r4_touching.r4_reach.Needs.{is_met};
ghost use Rattle.r4_extent_reach.specs.Standing.{stood};

use crate::known::Known;
use r4_base::Memory;
use r4_content::{Interval, Seen};
use r4_extent_asks::{Marks, SizedBody, Way, extents_have};
use r4_extent_reaching::{Cell, Cells, Reach, Root, cells_coming};
use std::alloc::{AllocError, Global};
use std::sync::Arc;

/// The reach of a command with these cells. The only error is want of memory, where 2^64 new cells or more may come.
pub(crate) fn reach_from(
    alloc: Global,
    root: &Root,
    seen: Seen,
    known: &Known,
    changes: &[Interval],
    met: Vec<Arc<Cell>>,
    marks: Marks,
) -> Result<Reach, Memory>
    requires { AreExtentEdits known.now.body (edits_of known.now.edits) }
    ensures { IfOk result (IsFrom root.now seen
        (record {
          edits = known.now.edits;
          body = known.now.body;
          in_extents = stood known.now.body;
          changes = map interval_of changes.now;
        })
        (map (λ c. arc_value c) met.items) marks) }
{
    let most = most_in(alloc, known, &marks)?;
    let in_leaves = is_of_leaves(known.body.as_ref(), changes, met.as_slice());
    Ok(Reach {
        reads: Cells::from_vec(marks.reads),
        writes: Cells::from_vec(marks.writes),
        met: Cells::from_vec(met),
        root: marks.rises.map(|_| *root),
        seen,
        most,
        in_extents: stood_in_extents(known.body.as_ref()),
        in_leaves,
    })
}

// Whether no body stands in extents, before or afterwards, and none of the cells has an extent with one of these keys.
fn is_of_leaves(body: Option<&SizedBody>, changes: &[Interval], met: &[Arc<Cell>]) -> bool
    ensures { (result ≡ true) ↔ IsOfLeaves (option_copied body.entry)
        (stood (option_copied body.entry)) (map interval_of changes.now)
        (map (λ c. arc_value c) met.now) }
{
    !is_spread(body) && spare_extents(changes, met)
}

// Whether a body stands in extents afterwards, if there is one.
fn is_spread(body: Option<&SizedBody>) -> bool
    ensures { (result ≡ false) ↔ (IsInLeaves (option_copied body.entry)
        × (stood (option_copied body.entry) ≡ false)) }
{
    match body {
        Some(body) => body.is_spread(),
        None => false,
    }
}

// Whether none of the cells has an extent with one of these keys.
fn spare_extents(changes: &[Interval], cells: &[Arc<Cell>]) -> bool
    ensures { (result ≡ true) ↔ ((x : CellSeen) (s : Span)
        → Contains (map (λ c. arc_value c) cells.now) x → Contains (node_of x).spans s
        → is_met (map interval_of changes.now) s.lo s.hi ≡ false) }
{
    for cell in cells {
        if !spares_extents(changes, cell) {
            return false;
        }
    }
    true
}

// Whether a cell has no extent with one of these keys; a data block has none.
fn spares_extents(changes: &[Interval], cell: &Cell) -> bool
    ensures { (result ≡ true) ↔ ((s : Span) → Contains (node_of cell.now).spans s
        → is_met (map interval_of changes.now) s.lo s.hi ≡ false) }
{
    cell.level() == 0 || !extents_have(Way::Meets(changes), cell)
}

// Whether a body stood in extents, if there is one.
fn stood_in_extents(body: Option<&SizedBody>) -> bool
    ensures { result ≡ stood (option_copied body.entry) }
{
    match body {
        Some(body) => body.stood_in_extents(),
        None => false,
    }
}

// How many new cells come at most: one in the place of each that is written, those for which these ask, a new root, and
// what comes to twigs.
fn most_in(alloc: Global, known: &Known, marks: &Marks) -> Result<u64, Memory>
    requires { AreExtentEdits known.now.body (edits_of known.now.edits) }
    ensures { IfOk result (λ n. n ≡ length marks.now.writes.items + marks.now.more
        + rise_of (option_map ask_seen marks.now.rises)
        + sum_by (twig_cells known.now.body (edits_of known.now.edits))
        (map (λ c. arc_value c) marks.now.writes.items)) }
{
    let below = (marks.writes.len() as u64)
        .checked_add(marks.more)
        .ok_or(AllocError)?;
    let rise = u64::from(marks.rises.is_some());
    let asked = below.checked_add(rise).ok_or(AllocError)?;
    let come = cells_coming(
        alloc,
        known.body.as_ref(),
        &known.edits,
        marks.writes.as_slice(),
    )?;
    Ok(asked.checked_add(come).ok_or(AllocError)?)
}

//! How many new cells come to twigs (docs/volume.md, "Reach").

ghost use Rattle.std.specs.Prelude.{◌≡◌, ◌^◌, ◌<◌, IfOk, Some, map, sum_by};
ghost use Rattle.std.specs.Arc.{arc_value};
ghost use Rattle.std.specs.Option.{option_copied};
ghost use Rattle.r4_extent_demands.specs.r4_cell.Seen.{node_of};
ghost use Rattle.r4_content.specs.Held.{edits_of};
ghost use Rattle.r4_extent_counts.specs.Coming.{body_cells, leaf_taking_up, twig_cells};
ghost use Rattle.r4_extent_demands.specs.Sizes.{AreExtentEdits, IsSized, IsSizedBody};
ghost use Rattle.r4_extent_demands.specs.r4_path.TwigPieces.{ArePiecesOf};

use crate::gaining::{come_to, filled_in_all};
use r4_base::{Memory, TWIG};
use r4_content::Edits;
use r4_extent_demands::{
    Cell, SizedBody, TwigPiece, cut, part_each, pieces_of_cell, place_of, put_among, taken_up,
};
use std::alloc::{AllocError, Global};
use std::sync::Arc;

/// How many new cells come at most to the twigs among these cells, besides the pointers that are asked for: leaves for
/// values that are put among extents, blocks of the body that get bytes and had none, and a leaf that takes up the range
/// of blocks that go. A step is taken for each block that comes, and none for a byte. The only error is want of memory,
/// where 2^64 cells or more may come (docs/volume.md, "Reach").
pub fn cells_coming(
    alloc: Global,
    body: Option<&SizedBody>,
    edits: &Edits,
    writes: &[Arc<Cell>],
) -> Result<u64, Memory>
    requires { AreExtentEdits (option_copied body) (edits_of edits.now) }
    ensures { IfOk result (λ n. n
        ≡ sum_by (twig_cells (option_copied body.entry) (edits_of edits.now))
        (map (λ c. arc_value c) writes.now)) }
{
    let mut come: u64 = 0;
    for cell in writes {
        let more = cells_of(alloc, body, edits, cell)?;
        come = come.checked_add(more).ok_or(AllocError)?;
    }
    Ok(come)
}

// How many come to a cell, if it is a twig.
fn cells_of(
    alloc: Global,
    body: Option<&SizedBody>,
    edits: &Edits,
    cell: &Cell,
) -> Result<u64, Memory>
    requires { AreExtentEdits (option_copied body) (edits_of edits.now) }
    ensures { IfOk result (λ n. n
        ≡ twig_cells (option_copied body.entry) (edits_of edits.now) cell.now) }
{
    if cell.level() != TWIG {
        return Ok(0);
    }
    let put = put_among(alloc, body, edits, cell)?;
    let own = cells_of_body(alloc, body, edits, cell)?;
    Ok(put.checked_add(own).ok_or(AllocError)?)
}

// How many of the body come to a twig, if there is one.
fn cells_of_body(
    alloc: Global,
    body: Option<&SizedBody>,
    edits: &Edits,
    twig: &Cell,
) -> Result<u64, Memory>
    requires twig { twig.now.level ≡ 2 }
    requires sized { IsSized (option_copied body) }
    ensures { IfOk result (λ n. n
        ≡ body_cells (option_copied body.entry) (edits_of edits.now) (node_of twig.now)) }
{
    match body {
        Some(body) => own_cells(alloc, body, edits, twig),
        None => Ok(0),
    }
}

// How many of a body come to a twig.
fn own_cells(alloc: Global, body: &SizedBody, edits: &Edits, twig: &Cell) -> Result<u64, Memory>
    requires twig { twig.now.level ≡ 2 }
    requires sized { IsSizedBody body.now }
    ensures { IfOk result (λ n. n
        ≡ body_cells (Some body.now) (edits_of edits.now) (node_of twig.now)) }
{
    let all = pieces_of_cell(alloc, twig)?;
    let pieces = all.as_slice();
    let left = cut(alloc, body, twig, pieces, pieces)?;
    let filled = filled_in_all(body, edits, left.as_slice())?;
    let come = come_to(body, edits, twig);
    let leaf = leaf_taking_up(alloc, body, twig, pieces)?;
    Ok(filled.checked_add(come + leaf).ok_or(AllocError)?)
}

// How many leaves take up the range of the blocks that go, of all pieces of a twig: one, where nothing left of them
// does, or none.
fn leaf_taking_up(
    alloc: Global,
    body: &SizedBody,
    twig: &Cell,
    all: &[TwigPiece],
) -> Result<u64, Memory>
    requires sized { IsSizedBody body.now }
    requires pieces { ArePiecesOf twig.now all.now }
    ensures is { IfOk result (λ n. n ≡ leaf_taking_up body.now (node_of twig.now)) }
    ensures few { IfOk result (λ n. n < 2 ^ 63) }
{
    let going = body.going();
    let first = part_each(alloc, all, &going.from)?;
    let parts = part_each(alloc, first.as_slice(), &going.to)?;
    let pieces = parts.as_slice();
    let from = place_of(pieces, &going.from);
    let to = place_of(pieces, &going.to);
    let middle = taken_up(alloc, twig, all, pieces, from, to)?;
    Ok(middle.len() as u64)
}

//! Whether a command's whole change may be made of the cells of its task, where its body stands in
//! extents and loses blocks (docs/volume.md, "Bodies in extents").

ghost use Rattle.std.specs.Prelude.{◌≡◌, ◌&&◌, ◌^◌, ◌<◌, ◌∷◌, [], Contains, IfOk, Some, map, true};
ghost use Rattle.std.specs.Arc.{arc_value};
ghost use Rattle.std.specs.List.{list_all};
ghost use Rattle.r4_base.specs.Node.{mkfs_id_of};
ghost use Rattle.r4_base.specs.declared.key.Key.{Key as KeySeen};
ghost use Rattle.r4_content.specs.Held.{edits_of};
ghost use Rattle.r4_extent_growth.specs.r4_measure.r4_cell.Seen.{CellSeen};
ghost use Rattle.r4_extent_growth.specs.r4_measure.r4_path.TwigPieces.{ArePiecesOf, twig_pieces};
ghost use Rattle.r4_extent_growth.specs.r4_extent_demands.Sizes.{AreExtentEdits, IsSizedBody};
ghost use Rattle.r4_extent_growth.specs.r4_extent_change.Among.{losing_twigs};
ghost use Rattle.r4_extent_growth.specs.Lying.{lie_in_leaves};
ghost use Rattle.r4_extent_growth.specs.r4_extent_loss.Losing.{IsLosing};
ghost use Rattle.r4_extent_shrink.specs.Going.{IsKnown, may_leave};
ghost use Rattle.r4_extent_shrink.specs.Shrink.{MayLoseAll, does_lose, has_numbers, may_lose};

use crate::coming::is_losing;
use crate::going::may_leave;
use r4_base::{Memory, get32};
use r4_content::Edits;
use r4_extent_growth::{
    Cell, Fresh, SizedBody, gets_some, have_room, lie_in_leaves, pieces_of_cell, without_bytes,
};
use std::alloc::Global;
use std::sync::Arc;

/// How many blocks have their keys among the bytes of one object.
const ALL_BLOCKS: u64 = 4503599627370496;

/// How many numbers there are to be for each cell: 64 for what comes beside it and above, and 65
/// for the turn of a twig.
const CELL_NUMBERS: u64 = 129;

/// Whether `change_of_losing` may be asked for the whole change of a command, as far as the cells
/// of its task tell it: its body stands in extents and loses blocks, and no block of it gets bytes;
/// what is no byte lies in leaves among the cells, which have room for it; what goes of each twig
/// begins and ends at borders of blocks, lies in its extents alone, and is among the cells, as is
/// the leaf that ends there; and there are 129 numbers for each cell. What it asks for beside that
/// is known of the part of a tree in which the cells stand, and of the budget
/// (`found_losses_can_be_made`). The only error is want of memory (docs/volume.md, "Bodies in
/// extents").
pub fn may_lose(
    alloc: Global,
    body: &SizedBody,
    edits: &Edits,
    cells: &[Arc<Cell>],
    fresh: &Fresh,
) -> Result<bool, Memory>
    requires { AreExtentEdits (Some body.now) (edits_of edits.now) }
    ensures exact { IfOk result (λ ok. ok ≡ may_lose body.now (edits_of edits.now) fresh.now
        (map (λ c. arc_value c) cells.now)) }
    ensures may { IfOk result (λ ok. ok ≡ true → MayLoseAll body.now (edits_of edits.now) fresh.now
        (map (λ c. arc_value c) cells.now)) }
{
    if !fits_body(body, edits, cells) {
        return Ok(false);
    }
    let beside = without_bytes(alloc, edits)?;
    if !have_room(alloc, &beside, cells)? {
        return Ok(false);
    }
    if !has_numbers(fresh, cells) {
        return Ok(false);
    }
    may_leave_all(alloc, body, cells)
}

// Whether a body loses blocks, and what is no byte lies in leaves among the cells.
fn fits_body(body: &SizedBody, edits: &Edits, cells: &[Arc<Cell>]) -> bool
    requires { IsSizedBody body.now }
    ensures exact { result ≡ (does_lose body.now (edits_of edits.now)
        && lie_in_leaves (map (λ c. arc_value c) cells.now) (edits_of edits.now)) }
    ensures loses { result ≡ true
        → (first : KeySeen) × IsLosing body.now first (edits_of edits.now) }
{
    does_lose(body, edits) && lie_in_leaves(cells, edits)
}

// Whether a body stands in extents and loses blocks, and none of its blocks gets bytes.
fn does_lose(body: &SizedBody, edits: &Edits) -> bool
    requires { IsSizedBody body.now }
    ensures exact { result ≡ does_lose body.now (edits_of edits.now) }
    ensures loses { result ≡ true
        → (first : KeySeen) × IsLosing body.now first (edits_of edits.now) }
{
    let first = body.first_byte();
    if !body.stood_in_extents() {
        return false;
    }
    let going = body.going();
    going.from.is_below(going.to) && !gets_some(body, edits, first, ALL_BLOCKS)
}

// Whether there are 129 numbers for each cell.
fn has_numbers(fresh: &Fresh, cells: &[Arc<Cell>]) -> bool
    ensures { result ≡ has_numbers fresh.now (map (λ c. arc_value c) cells.now) }
{
    match fresh.end.checked_sub(fresh.next) {
        None => false,
        Some(left) => cells.len() as u64 <= left / CELL_NUMBERS,
    }
}

// Whether what goes of each twig may go; what is known of the cells then.
fn may_leave_all(alloc: Global, body: &SizedBody, cells: &[Arc<Cell>]) -> Result<bool, Memory>
    requires sized { IsSizedBody body.now }
    requires in_extents { body.now.in_extents ≡ true }
    ensures exact { IfOk result (λ ok. ok ≡ list_all
        (may_leave body.now (map (λ c. arc_value c) cells.now))
        (losing_twigs body.now (map (λ c. arc_value c) cells.now))) }
    ensures known { IfOk result (λ ok. ok ≡ true → (c : CellSeen)
        → Contains (map (λ x. arc_value x) cells.now) c → IsKnown body.now c) }
{
    for cell in cells {
        if !cell_may_leave(alloc, body, cells, cell)? {
            return Ok(false);
        }
    }
    Ok(true)
}

// Whether a cell is no twig that loses blocks, or what goes of it may go.
fn cell_may_leave(
    alloc: Global,
    body: &SizedBody,
    cells: &[Arc<Cell>],
    cell: &Cell,
) -> Result<bool, Memory>
    requires sized { IsSizedBody body.now }
    requires in_extents { body.now.in_extents ≡ true }
    ensures exact { IfOk result (λ ok. ok ≡ list_all
        (may_leave body.now (map (λ c. arc_value c) cells.now))
        (losing_twigs body.now (cell.now ∷ []))) }
    ensures known { IfOk result (λ ok. IsKnown body.now cell.now) }
{
    if cell.level() == 1 {
        // that a leaf is sound is known of its node
        let _node = cell.node();
        return Ok(true);
    }
    if !is_losing(body, cell) {
        return Ok(true);
    }
    twig_may_leave(alloc, body, cells, cell)
}

// Whether what goes of a twig may go.
fn twig_may_leave(
    alloc: Global,
    body: &SizedBody,
    cells: &[Arc<Cell>],
    twig: &Cell,
) -> Result<bool, Memory>
    requires sized { IsSizedBody body.now }
    requires in_extents { body.now.in_extents ≡ true }
    requires level { twig.now.level ≡ 2 }
    ensures exact { IfOk result (λ ok. ok
        ≡ may_leave body.now (map (λ c. arc_value c) cells.now) twig.now) }
    ensures pieces { IfOk result (λ ok. ArePiecesOf twig.now (twig_pieces twig.now)) }
    ensures mkfs_id { IfOk result (λ ok. mkfs_id_of twig.now.block < 2 ^ 32) }
{
    let pieces = pieces_of_cell(alloc, twig)?;
    // a number of four bytes is below 2^32
    let _mkfs_id = get32(twig.block().bytes(), 12);
    Ok(may_leave(body, cells, twig, pieces.as_slice()))
}

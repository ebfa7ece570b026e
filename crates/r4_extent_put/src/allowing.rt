//! Whether a command's whole change may be made of the cells of its task, where values come among
//! extents (docs/volume.md, "Bodies in extents").

ghost use Rattle.std.specs.Prelude.{◌≡◌, ◌∷◌, [], Contains, IfOk, map, true};
ghost use Rattle.std.specs.Arc.{arc_value};
ghost use Rattle.std.specs.List.{list_all};
ghost use Rattle.std.specs.Option.{option_copied, option_map};
ghost use Rattle.r4_base.specs.Key.{rank};
ghost use Rattle.r4_content.specs.Held.{edits_of};
ghost use Rattle.r4_extent_turned.specs.r4_extent_growth.r4_extent_demands.Sizes.{AreExtentEdits};
ghost use Rattle.r4_extent_turned.specs.r4_extent_growth.r4_extent_demands.r4_leaf_demands.Leaves.{IsInLeaves};
ghost use Rattle.r4_extent_turned.specs.r4_extent_growth.r4_measure.r4_cell.Seen.{CellSeen};
ghost use Rattle.r4_extent_turned.specs.r4_extent_growth.r4_measure.r4_path.Sharing.{IsSound};
ghost use Rattle.r4_extent_put.specs.Allowing.{MayPutAll, has_numbers, is_in_leaves, may_put};
ghost use Rattle.r4_extent_put.specs.Taking.{IsKnown, is_spared, is_spared_to, takes_values};
ghost use Rattle.r4_extent_put.specs.Whole.{putting_among};

use crate::coming::{leaves_put, need_of};
use crate::finding::is_putting;
use r4_base::{Key, Memory};
use r4_content::Edits;
use r4_extent_turned::{
    Cell, Fresh, SizedBody, TwigPart, TwigPiece, pieces_of_cell, touches_leaf, unit_end,
};
use std::alloc::Global;
use std::sync::Arc;

/// So many bytes a twig may need that is packed anew (docs/volume.md, "Twigs").
const MOST_BYTES: u64 = 16000;

/// How many numbers there are to be for each cell: 64 for what comes beside it and above, and 64
/// for the turn of a twig.
const CELL_NUMBERS: u64 = 128;

/// Whether `change_of_putting` may be asked for the whole change of a command, as far as the cells
/// of its task tell it: no body stands in extents afterwards; no key changes where a twig among
/// whose extents values come has a block or a hole, and none of these twigs needs more than 16,000
/// bytes; and there is a number for each leaf that comes, and 128 for each cell. Of the leaves that
/// change nothing is asked: each is looked at when its turn comes. What it asks for beside that is
/// known of the part of a tree in which the cells stand, and of the budget
/// (`found_puts_can_be_made`). The only error is want of memory, where 2^64 leaves or bytes may be
/// needed too (docs/volume.md, "Bodies in extents").
pub fn may_put(
    alloc: Global,
    body: Option<&SizedBody>,
    edits: &Edits,
    cells: &[Arc<Cell>],
    fresh: &Fresh,
) -> Result<bool, Memory>
    requires { AreExtentEdits (option_copied body) (edits_of edits.now) }
    ensures exact { IfOk result (λ ok. ok ≡ may_put (option_copied body.entry)
        (edits_of edits.now) fresh.now (map (λ c. arc_value c) cells.now)) }
    ensures may { IfOk result (λ ok. ok ≡ true → MayPutAll (option_copied body.entry)
        (edits_of edits.now) fresh.now (map (λ c. arc_value c) cells.now)) }
{
    if !is_in_leaves(body) {
        return Ok(false);
    }
    if !has_numbers(alloc, body, edits, cells, fresh)? {
        return Ok(false);
    }
    take_all(alloc, body, edits, cells)
}

// Whether no body stands in extents afterwards.
fn is_in_leaves(body: Option<&SizedBody>) -> bool
    ensures exact { result ≡ is_in_leaves (option_copied body.entry) }
    ensures leaves { result ≡ true → IsInLeaves (option_copied body.entry) }
{
    match body {
        None => true,
        Some(body) => !body.is_spread(),
    }
}

// Whether there is a number for each leaf that comes, and 128 for each cell.
fn has_numbers(
    alloc: Global,
    body: Option<&SizedBody>,
    edits: &Edits,
    cells: &[Arc<Cell>],
    fresh: &Fresh,
) -> Result<bool, Memory>
    requires edits { AreExtentEdits (option_copied body) (edits_of edits.now) }
    requires in_leaves { IsInLeaves (option_copied body) }
    ensures { IfOk result (λ ok. ok ≡ has_numbers (option_copied body.entry) (edits_of edits.now)
        fresh.now (map (λ c. arc_value c) cells.now)) }
{
    let Some(all) = fresh.end.checked_sub(fresh.next) else {
        return Ok(false);
    };
    let leaves = leaves_put(alloc, body, edits, cells)?;
    let Some(left) = all.checked_sub(leaves) else {
        return Ok(false);
    };
    Ok(cells.len() as u64 <= left / CELL_NUMBERS)
}

// Whether each twig among whose extents values come takes them; what is known of the cells then.
fn take_all(
    alloc: Global,
    body: Option<&SizedBody>,
    edits: &Edits,
    cells: &[Arc<Cell>],
) -> Result<bool, Memory>
    requires edits { AreExtentEdits (option_copied body) (edits_of edits.now) }
    requires in_leaves { IsInLeaves (option_copied body) }
    ensures exact { IfOk result (λ ok. ok ≡ list_all
        (takes_values (option_copied body.entry) (edits_of edits.now))
        (putting_among (option_copied body.entry) (edits_of edits.now)
        (map (λ c. arc_value c) cells.now))) }
    ensures known { IfOk result (λ ok. ok ≡ true → (c : CellSeen)
        → Contains (map (λ x. arc_value x) cells.now) c
        → IsKnown (option_copied body.entry) (edits_of edits.now) c) }
{
    for cell in cells {
        if !cell_takes(alloc, body, edits, cell)? {
            return Ok(false);
        }
    }
    Ok(true)
}

// Whether a cell is no twig among whose extents values come, or takes them.
fn cell_takes(
    alloc: Global,
    body: Option<&SizedBody>,
    edits: &Edits,
    cell: &Arc<Cell>,
) -> Result<bool, Memory>
    requires edits { AreExtentEdits (option_copied body) (edits_of edits.now) }
    requires in_leaves { IsInLeaves (option_copied body) }
    ensures exact { IfOk result (λ ok. ok ≡ list_all
        (takes_values (option_copied body.entry) (edits_of edits.now))
        (putting_among (option_copied body.entry) (edits_of edits.now)
        (arc_value cell.now ∷ []))) }
    ensures known { IfOk result
        (λ ok. IsKnown (option_copied body.entry) (edits_of edits.now) (arc_value cell.now)) }
{
    if !is_putting(body, edits, cell) {
        return Ok(true);
    }
    takes_values(alloc, body, edits, cell)
}

// Whether a twig takes the values that come among its extents.
fn takes_values(
    alloc: Global,
    body: Option<&SizedBody>,
    edits: &Edits,
    twig: &Arc<Cell>,
) -> Result<bool, Memory>
    requires twig { (arc_value twig.now).level ≡ 2 }
    requires edits { AreExtentEdits (option_copied body) (edits_of edits.now) }
    requires in_leaves { IsInLeaves (option_copied body) }
    ensures exact { IfOk result (λ ok. ok
        ≡ takes_values (option_copied body.entry) (edits_of edits.now) (arc_value twig.now)) }
    ensures sound { IfOk result (λ ok. IsSound (arc_value twig.now)) }
{
    // that the twig is sound is known of its node
    let _node = twig.node();
    let pieces = pieces_of_cell(alloc, twig)?;
    if !are_spared(edits, pieces.as_slice()) {
        return Ok(false);
    }
    let need = need_of(alloc, body, edits, twig)?;
    Ok(need <= MOST_BYTES)
}

// Whether no key of the blocks and the holes of these pieces changes.
fn are_spared(edits: &Edits, pieces: &[TwigPiece]) -> bool
    ensures { result ≡ list_all (is_spared (edits_of edits.now)) pieces.now }
{
    pieces.iter().all(|piece| is_spared(edits, piece))
}

// Whether no key of a piece's blocks changes, and none of its hole.
fn is_spared(edits: &Edits, piece: &TwigPiece) -> bool
    ensures { result ≡ is_spared (edits_of edits.now) piece.now }
{
    match piece.part {
        TwigPart::Pointer(_) => true,
        TwigPart::Blocks(_) => is_spared_to(edits, &piece.key, unit_end(piece)),
    }
}

// Whether a unit's end is known, and no key changes up to there.
fn is_spared_to(edits: &Edits, from: &Key, end: Option<Key>) -> bool
    ensures { result ≡ is_spared_to (edits_of edits.now) (rank from.now) (option_map rank end) }
{
    match end {
        None => false,
        Some(end) => !touches_leaf(edits, from, &end),
    }
}

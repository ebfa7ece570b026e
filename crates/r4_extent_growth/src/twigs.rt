//! Whether the twigs of a growing body may have their turns, and the numbers that they need
//! (docs/volume.md, "Bodies in extents").

ghost use Rattle.std.specs.Prelude.{◌≡◌, ◌^◌, ◌<◌, ◌≤◌, Contains, IfOk, IfSome, None, Some};
ghost use Rattle.std.specs.Prelude.{is_some, length, map, true};
ghost use Rattle.std.specs.Arc.{arc_value};
ghost use Rattle.std.specs.List.{list_all};
ghost use Rattle.std.specs.Option.{option_map};
ghost use Rattle.r4_base.specs.Key.{rank};
ghost use Rattle.r4_content.specs.Held.{edits_of};
ghost use Rattle.r4_extent_change.specs.r4_measure.r4_branch.Pieces.{last_end};
ghost use Rattle.r4_extent_change.specs.r4_measure.r4_cell.Seen.{CellSeen};
ghost use Rattle.r4_extent_change.specs.r4_measure.r4_path.TwigPieces.{ArePiecesOf, twig_pieces};
ghost use Rattle.r4_extent_change.specs.r4_extent_build.Numbering.{coming_count, has_block_at, is_coming};
ghost use Rattle.r4_extent_change.specs.r4_extent_build.Numbering.{is_told_block};
ghost use Rattle.r4_twig_asks.specs.r4_extent_demands.Sizes.{AreExtentEdits, IsSizedBody};
ghost use Rattle.r4_extent_change.specs.Beside.{is_turning, turning_among};
ghost use Rattle.r4_extent_growth.specs.Turning.{comes_into, ends_by, has_gap, has_next, is_open_by};
ghost use Rattle.r4_extent_growth.specs.Turning.{is_clear, may_be_packed, may_turn_all};
ghost use Rattle.r4_extent_growth.specs.Turning.{numbers_for, numbers_of_turn, stands_clear};

use crate::coming::is_turning;
use crate::lying::has_block;
use r4_base::{Key, Memory, UNPLACED};
use r4_content::Edits;
use r4_extent_change::Cell;
use r4_twig_asks::{
    SizedBody, TwigPart, TwigPiece, comes_first, pieces_after, pieces_of_cell, place_of,
    twig_bytes, unit_end,
};
use std::alloc::Global;
use std::sync::Arc;

/// So many bytes the pieces of a twig may need that is packed anew (docs/volume.md, "Twigs").
const MOST_BYTES: u64 = 16000;

/// How many numbers a twig and a cell have of their own, for what may come beside them and above.
const OWN_NUMBERS: u64 = 64;

// Whether each twig among some cells whose pieces change may have its turn, and so many numbers
// suffice for these turns and for the edits of all cells.
pub(crate) fn may_turn_all(
    alloc: Global,
    body: &SizedBody,
    edits: &Edits,
    cells: &[Arc<Cell>],
    numbers: u64,
) -> Result<bool, Memory>
    requires { AreExtentEdits (Some body.now) (edits_of edits.now) }
    ensures exact { IfOk result (λ ok. ok ≡ may_turn_all body.now (edits_of edits.now)
        (map (λ c. arc_value c) cells.now) numbers) }
    ensures pieces { IfOk result (λ ok. ok ≡ true → (c : CellSeen)
        → Contains (turning_among body.now (edits_of edits.now) (map (λ x. arc_value x) cells.now))
        c → ArePiecesOf c (twig_pieces c)) }
{
    let mut left = numbers;
    for cell in cells {
        let Some(count) = numbers_for(alloc, body, edits, cell)? else {
            return Ok(false);
        };
        let Some(rest) = left.checked_sub(count) else {
            return Ok(false);
        };
        left = rest;
    }
    Ok(true)
}

// The numbers that a cell needs, and a twig whose pieces change; none if such a twig may not have
// its turn.
fn numbers_for(
    alloc: Global,
    body: &SizedBody,
    edits: &Edits,
    cell: &Cell,
) -> Result<Option<u64>, Memory>
    requires { AreExtentEdits (Some body.now) (edits_of edits.now) }
    ensures exact { IfOk result (λ o. o ≡ numbers_for body.now (edits_of edits.now) cell.now) }
    ensures pieces { IfOk result (λ o. is_turning body.now (edits_of edits.now) cell.now ≡ true
        → ArePiecesOf cell.now (twig_pieces cell.now)) }
{
    if !is_turning(body, edits, cell) {
        return Ok(Some(OWN_NUMBERS));
    }
    let count = numbers_of_turn(alloc, body, edits, cell)?;
    Ok(count.map(|n| n + OWN_NUMBERS))
}

// The numbers that a twig needs for its turn; none if it may not have it.
fn numbers_of_turn(
    alloc: Global,
    body: &SizedBody,
    edits: &Edits,
    twig: &Cell,
) -> Result<Option<u64>, Memory>
    requires level { twig.now.level ≡ 2 }
    requires sized { IsSizedBody body.now }
    ensures exact { IfOk result (λ o. o ≡ numbers_of_turn body.now (edits_of edits.now) twig.now) }
    ensures few { IfOk result (λ o. IfSome o (λ n. n < 2 ^ 63)) }
    ensures pieces { IfOk result (λ o. ArePiecesOf twig.now (twig_pieces twig.now)) }
{
    let old = pieces_of_cell(alloc, twig)?;
    let new = pieces_after(alloc, Some(body), edits, twig, &[])?;
    if !is_clear(body, twig, old.as_slice()) {
        return Ok(None);
    }
    if !may_be_packed(old.as_slice(), new.as_slice()) {
        return Ok(None);
    }
    Ok(Some(coming_count(old.as_slice(), new.as_slice()) + OWN_NUMBERS))
}

// ---- nothing stands where blocks come

// Whether none of a twig's pieces stands where blocks come, and there is a gap for those that come
// into it.
fn is_clear(body: &SizedBody, twig: &Cell, pieces: &[TwigPiece]) -> bool
    requires { IsSizedBody body.now }
    ensures { result ≡ is_clear body.now twig.now pieces.now }
{
    stand_clear(body, pieces) && (!comes_into(body, twig) || has_gap(body, twig, pieces))
}

// Whether none of these pieces stands where blocks come.
fn stand_clear(body: &SizedBody, pieces: &[TwigPiece]) -> bool
    requires { IsSizedBody body.now }
    ensures { result ≡ list_all (stands_clear body.now) pieces.now }
{
    pieces.iter().all(|piece| stands_clear(body, piece))
}

// Whether a piece does not stand where blocks come.
fn stands_clear(body: &SizedBody, piece: &TwigPiece) -> bool
    requires { IsSizedBody body.now }
    ensures { result ≡ stands_clear body.now piece.now }
{
    let coming = body.coming();
    !piece.key.is_below(coming.to) || ends_by(piece, &coming.from)
}

/// Whether a piece ends by a key; a unit that reaches the end of its object is taken for one that
/// does not (docs/volume.md, "Bodies in extents").
pub fn ends_by(piece: &TwigPiece, key: &Key) -> bool
    ensures { result ≡ ends_by (rank key.now) piece.now }
{
    match piece.part {
        TwigPart::Pointer(_) => piece.key.is_below(*key),
        TwigPart::Blocks(_) => is_open_by(unit_end(piece), key),
    }
}

// Whether a unit's end is known, and not behind a key.
fn is_open_by(end: Option<Key>, key: &Key) -> bool
    ensures { result ≡ is_open_by (rank key.now) (option_map rank end) }
{
    match end {
        None => false,
        Some(end) => !key.is_below(end),
    }
}

// Whether blocks come, and the first of them into a twig's range.
fn comes_into(body: &SizedBody, twig: &Cell) -> bool
    requires { IsSizedBody body.now }
    ensures { result ≡ comes_into body.now twig.now }
{
    let coming = body.coming();
    comes_first(body, twig) && coming.from.is_below(coming.to)
}

// Whether a twig's range reaches behind the blocks that come, and the piece before them is a unit.
fn has_gap(body: &SizedBody, twig: &Cell, pieces: &[TwigPiece]) -> bool
    requires { IsSizedBody body.now }
    ensures { result ≡ has_gap body.now twig.now pieces.now }
{
    let coming = body.coming();
    let before = &pieces[..place_of(pieces, &coming.from)];
    !twig.hi().is_below(coming.to) && end_in_unit(before)
}

// Whether the last piece is a unit that does not reach the end of its object.
fn end_in_unit(pieces: &[TwigPiece]) -> bool
    ensures { result ≡ is_some (last_end None pieces.now) }
{
    if pieces.is_empty() {
        return false;
    }
    unit_end(&pieces[pieces.len() - 1]).is_some()
}

// ---- the pieces afterwards

// Whether there is a key behind each block that comes, and the pieces need no more bytes than a
// twig may.
fn may_be_packed(old: &[TwigPiece], new: &[TwigPiece]) -> bool
    ensures { result ≡ may_be_packed old.now new.now }
{
    have_next(old, new) && twig_bytes(new) <= MOST_BYTES
}

// Whether there is a key behind each of these pieces that stands for a block that comes.
fn have_next(old: &[TwigPiece], new: &[TwigPiece]) -> bool
    ensures { result ≡ list_all (has_next old.now) new.now }
{
    new.iter().all(|piece| has_next(old, piece))
}

// Whether there is a key behind a piece, if it stands for a block that comes.
fn has_next(old: &[TwigPiece], piece: &TwigPiece) -> bool
    ensures { result ≡ has_next old.now piece.now }
{
    !is_coming(old, piece) || has_block(&piece.key)
}

// How many of the pieces stand for blocks that come.
fn coming_count(old: &[TwigPiece], new: &[TwigPiece]) -> u64
    ensures count { result ≡ coming_count old.now new.now }
    ensures few { result ≤ length new.now }
{
    let mut count = 0;
    for piece in new {
        if is_coming(old, piece) {
            count += 1;
        }
    }
    count
}

// Whether a piece stands for a block that comes.
fn is_coming(old: &[TwigPiece], piece: &TwigPiece) -> bool
    ensures { result ≡ is_coming old.now piece.now }
{
    is_told_block(&piece.part) && !has_block_at(old, &piece.key)
}

// Whether one of the pieces is at a key, and is a block of the number that stands for one that
// comes.
fn has_block_at(old: &[TwigPiece], key: &Key) -> bool
    ensures { result ≡ has_block_at (rank key.now) old.now }
{
    old.iter()
        .any(|q| q.key.is_same(*key) && is_told_block(&q.part))
}

// Whether a part is one block of the number that stands for one that comes.
fn is_told_block(part: &TwigPart) -> bool
    ensures { result ≡ is_told_block part.now }
{
    match part {
        TwigPart::Pointer(_) => false,
        TwigPart::Blocks(unit) => unit.start == UNPLACED && unit.width == 1,
    }
}

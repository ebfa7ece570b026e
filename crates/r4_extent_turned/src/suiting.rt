//! Whether a command's whole change may be made of the cells of its task, where its body comes to
//! extents (docs/volume.md, "Bodies in extents").

ghost use Rattle.std.specs.Prelude.{◌≡◌, ◌==◌, ◌&&◌, ◌∷◌, [], Contains, IfOk, List, Some, length, map};
ghost use Rattle.std.specs.Prelude.{not, true};
ghost use Rattle.std.specs.Arc.{arc_value};
ghost use Rattle.std.specs.List.{list_all};
ghost use Rattle.r4_base.specs.declared.key.Key.{Key as KeySeen};
ghost use Rattle.r4_base.specs.Key.{rank};
ghost use Rattle.r4_content.specs.Held.{edits_of};
ghost use Rattle.r4_extent_shrink.specs.r4_extent_growth.Coming.{count_of};
ghost use Rattle.r4_extent_shrink.specs.r4_extent_growth.Lying.{have_room, lie_in_leaves};
ghost use Rattle.r4_extent_shrink.specs.r4_extent_growth.r4_extent_build.Setting.{is_hole_of};
ghost use Rattle.r4_extent_shrink.specs.r4_extent_growth.r4_extent_change.Beside.{without_bytes};
ghost use Rattle.r4_extent_shrink.specs.r4_extent_growth.r4_extent_demands.Sizes.{AreExtentEdits, IsSizedBody};
ghost use Rattle.r4_extent_shrink.specs.r4_extent_growth.r4_measure.r4_cell.Seen.{CellSeen};
ghost use Rattle.r4_extent_shrink.specs.r4_extent_growth.r4_measure.r4_path.Sharing.{IsSound};
ghost use Rattle.r4_extent_shrink.specs.r4_extent_growth.r4_measure.r4_path.TwigPieces.{ArePiecesOf, twig_pieces};
ghost use Rattle.r4_extent_shrink.specs.r4_extent_growth.r4_measure.r4_reach.Touched.{coming, turns_out};
ghost use Rattle.r4_extent_shrink.specs.r4_extent_growth.r4_measure.r4_leaf.Units.{is_between};
ghost use Rattle.r4_extent_turn.specs.Asked.{is_pointer, without_turned};
ghost use Rattle.r4_extent_turn.specs.Turning.{IsTurningBody, last_of};
ghost use Rattle.r4_extent_turn.specs.TurningIn.{turn_of};
ghost use Rattle.r4_extent_turned.specs.MayTurn.{MayTurnWhole, may_turn, twig_turning};
ghost use Rattle.r4_extent_turned.specs.Suiting.{changes_before, has_leaves, has_numbers, is_clear};
ghost use Rattle.r4_extent_turned.specs.Suiting.{leaves_suit, pieces_suit, pieces_turned};
ghost use Rattle.r4_extent_turned.specs.Suiting.{twig_suits};

use crate::leaves::{change_before, is_clear, leaves_suit};
use r4_base::{Memory, NodeId};
use r4_content::{Edits, Interval};
use r4_extent_shrink::{
    Cell, Fresh, KeyRange, SizedBody, TwigPart, TwigPiece, extra_twigs, have_room, lie_in_leaves,
    pieces_after, pieces_of_cell, twig_bytes, without_bytes,
};
use r4_extent_turn::Turning;
use std::alloc::Global;
use std::sync::Arc;

/// A twig that is packed anew needs no more bytes.
const MOST_BYTES: u64 = 16000;

/// How many numbers there are to be for each cell.
const CELL_NUMBERS: u64 = 64;

/// How many numbers there are to be for the twig, and for what stays of its leaves.
const TURN_NUMBERS: u64 = 194;

/// Whether `change_of_turning` may be asked for the whole change of a command, as far as the cells
/// of its task tell it: its body comes out of tails, or had no bytes, to extents; what is no byte
/// lies in leaves among the cells, which have room for it, and before the body; the leaves that are
/// turned lie one beside the other around the blocks that come, in the twig's range, and have no
/// unit there behind the body; no extent of the twig is a hole of the body, and it has room; and
/// there are numbers enough. What it asks for beside that is known of the part of a tree in which
/// the cells stand, and of the budget (`found_turns_can_be_made`). The only error is want of memory
/// (docs/volume.md, "Bodies in extents").
pub fn may_turn(
    alloc: Global,
    body: &SizedBody,
    edits: &Edits,
    cells: &[Arc<Cell>],
    turning: &Turning,
    fresh: &Fresh,
) -> Result<bool, Memory>
    requires { AreExtentEdits (Some body.now) (edits_of edits.now) }
    ensures exact { IfOk result (λ ok. ok ≡ may_turn body.now (edits_of edits.now) fresh.now
        (map (λ c. arc_value c) cells.now) (turn_of turning.now)) }
    ensures may { IfOk result (λ ok. ok ≡ true → MayTurnWhole body.now (edits_of edits.now)
        fresh.now (map (λ c. arc_value c) cells.now) (turn_of turning.now)) }
{
    if !fits_body(body, edits, cells) {
        return Ok(false);
    }
    let beside = without_bytes(alloc, edits)?;
    if !have_room(alloc, &beside, cells)? {
        return Ok(false);
    }
    if !change_before(body, &beside, cells) {
        return Ok(false);
    }
    turn_suits(alloc, body, edits, cells, turning, fresh)
}

// Whether a body comes to extents, and what is no byte lies in leaves among the cells.
fn fits_body(body: &SizedBody, edits: &Edits, cells: &[Arc<Cell>]) -> bool
    requires { IsSizedBody body.now }
    ensures exact { result ≡ (turns_out body.now
        && lie_in_leaves (map (λ c. arc_value c) cells.now) (edits_of edits.now)) }
    ensures turns { result ≡ true → (first : KeySeen) × IsTurningBody body.now first }
{
    turns_out(body) && lie_in_leaves(cells, edits)
}

// Whether a body comes to extents; its first key is known then.
fn turns_out(body: &SizedBody) -> bool
    requires { IsSizedBody body.now }
    ensures exact { result ≡ turns_out body.now }
    ensures turns { result ≡ true → (first : KeySeen) × IsTurningBody body.now first }
{
    let _first = body.first_byte();
    body.turns_out()
}

// Whether a twig and its leaves may be turned.
fn turn_suits(
    alloc: Global,
    body: &SizedBody,
    edits: &Edits,
    cells: &[Arc<Cell>],
    turning: &Turning,
    fresh: &Fresh,
) -> Result<bool, Memory>
    requires sized { IsSizedBody body.now }
    requires turns { turns_out body.now ≡ true }
    ensures exact { IfOk result (λ ok. ok
        ≡ (has_leaves body.now (turn_of turning.now).twig (last_of (turn_of turning.now))
        && (leaves_suit body.now (turn_of turning.now).leaf (turn_of turning.now).more
        && twig_suits body.now (edits_of edits.now) fresh.now (map (λ c. arc_value c) cells.now)
        (turn_of turning.now).twig (last_of (turn_of turning.now))))) }
    ensures pieces { IfOk result (λ ok. ok ≡ true
        → ArePiecesOf (turn_of turning.now).twig (twig_pieces (turn_of turning.now).twig)) }
{
    let leaves = turning.leaves.as_slice();
    if leaves.is_empty() {
        return Ok(false);
    }
    let last = &leaves[leaves.len() - 1];
    if !has_leaves(body, &turning.twig, last) {
        return Ok(false);
    }
    if !leaves_suit(alloc, body, leaves, last)? {
        return Ok(false);
    }
    twig_suits(alloc, body, edits, cells, &turning.twig, last, fresh)
}

// Whether a cell is a twig, in whose range the blocks that come begin, and a last leaf does.
fn has_leaves(body: &SizedBody, twig: &Cell, last: &Cell) -> bool
    requires { IsSizedBody body.now }
    ensures { result ≡ has_leaves body.now twig.now last.now }
{
    let first = body.first_byte();
    twig.level() == 2
        && !first.is_below(twig.lo())
        && first.is_below(twig.hi())
        && last.lo().is_below(twig.hi())
}

// Whether no extent of a twig is a hole of the body, the twig has room, and there are numbers
// enough.
fn twig_suits(
    alloc: Global,
    body: &SizedBody,
    edits: &Edits,
    cells: &[Arc<Cell>],
    twig: &Cell,
    last: &Cell,
    fresh: &Fresh,
) -> Result<bool, Memory>
    requires sized { IsSizedBody body.now }
    requires level { twig.now.level ≡ 2 }
    ensures exact { IfOk result (λ ok. ok ≡ twig_suits body.now (edits_of edits.now) fresh.now
        (map (λ c. arc_value c) cells.now) twig.now last.now) }
    ensures pieces { IfOk result (λ ok. ArePiecesOf twig.now (twig_pieces twig.now)) }
{
    let old = pieces_of_cell(alloc, twig)?;
    let new = pieces_turned(alloc, body, edits, twig, last)?;
    let count = cells.len() as u64;
    Ok(pieces_suit(body, fresh, count, old.as_slice(), new.as_slice()))
}

// The pieces that a twig is to have, without the pointers to leaves that begin among the blocks
// that come, and with a pointer more, where something stays of the last leaf.
fn pieces_turned(
    alloc: Global,
    body: &SizedBody,
    edits: &Edits,
    twig: &Cell,
    last: &Cell,
) -> Result<Vec<TwigPiece>, Memory>
    requires sized { IsSizedBody body.now }
    requires level { twig.now.level ≡ 2 }
    ensures { IfOk result (λ v. v.items
        ≡ pieces_turned body.now (edits_of edits.now) twig.now last.now) }
{
    let mut pieces = pieces_after(alloc, Some(body), edits, twig, &[])?;
    leave_out_turned(&mut pieces, body);
    if nothing_stays(alloc, body, last)? {
        return Ok(pieces);
    }
    pieces.push(TwigPiece {
        key: twig.lo(),
        part: TwigPart::Pointer(twig.id()),
    })?;
    Ok(pieces)
}

// Leaves out the pointers to leaves that begin among the blocks that come.
fn leave_out_turned(pieces: &mut Vec<TwigPiece>, body: &SizedBody)
    requires sized { IsSizedBody body.now }
    ensures { pieces.new.items ≡ without_turned body.now pieces.old.items }
{
    let coming = body.coming();
    pieces.retain(|piece| !points_into(&coming, piece));
}

// Whether a piece points to a leaf that begins with one of some keys.
fn points_into(keys: &KeyRange, piece: &TwigPiece) -> bool
    ensures { result ≡ (is_between (rank keys.now.from) (rank keys.now.to) (rank piece.now.key)
        && is_pointer piece.now.part) }
{
    match piece.part {
        TwigPart::Pointer(_) => { !piece.key.is_below(keys.from) && piece.key.is_below(keys.to) }
        TwigPart::Blocks(_) => false,
    }
}

// Whether a cell is a leaf of which nothing stays behind the blocks that come.
fn nothing_stays(alloc: Global, body: &SizedBody, last: &Cell) -> Result<bool, Memory>
    requires sized { IsSizedBody body.now }
    ensures { IfOk result (λ none. none ≡ ((last.now.level == 1)
        && is_clear (coming body.now).1 (rank last.now.hi) last.now)) }
{
    if last.level() != 1 {
        return Ok(false);
    }
    let behind = Interval {
        from: body.coming().to,
        to: last.hi(),
    };
    is_clear(alloc, last, behind)
}

// Whether none of a twig's pieces is a hole of the body, there is room for those that it is to
// have, and there are numbers enough.
fn pieces_suit(
    body: &SizedBody,
    fresh: &Fresh,
    cells: u64,
    old: &[TwigPiece],
    new: &[TwigPiece],
) -> bool
    requires { IsSizedBody body.now }
    ensures { result ≡ pieces_suit body.now fresh.now cells old.now new.now }
{
    has_no_hole(body, old)
        && (twig_bytes(new) <= MOST_BYTES && has_numbers(fresh, new.len() as u64, cells))
}

// Whether none of these pieces is a hole of a body.
fn has_no_hole(body: &SizedBody, pieces: &[TwigPiece]) -> bool
    requires { IsSizedBody body.now }
    ensures { result ≡ list_all (λ p. not (is_hole_of body.now p)) pieces.now }
{
    pieces.iter().all(|piece| !is_hole_of(body, piece))
}

// Whether a piece is a hole of a body.
fn is_hole_of(body: &SizedBody, piece: &TwigPiece) -> bool
    requires { IsSizedBody body.now }
    ensures { result ≡ is_hole_of body.now piece.now }
{
    match piece.part {
        TwigPart::Pointer(_) => false,
        TwigPart::Blocks(unit) => unit.start == 0 && body.has(piece.key),
    }
}

// Whether there is a number for each of so many pieces, 194 more, and 64 for each of so many cells.
fn has_numbers(fresh: &Fresh, pieces: u64, cells: u64) -> bool
    ensures { result ≡ has_numbers fresh.now pieces cells }
{
    let Some(left) = fresh.end.checked_sub(fresh.next) else {
        return false;
    };
    let Some(rest) = left.checked_sub(pieces) else {
        return false;
    };
    match rest.checked_sub(TURN_NUMBERS) {
        None => false,
        Some(rest) => cells <= rest / CELL_NUMBERS,
    }
}

/// The number of a twig, and how many twigs may come beside it once it has had its turn, whatever
/// stays of its leaves: a list of one. The only error is want of memory (docs/volume.md, "Bodies in
/// extents").
pub fn twig_turning(
    alloc: Global,
    body: &SizedBody,
    edits: &Edits,
    turning: &Turning,
) -> Result<Vec<(NodeId, u64)>, Memory>
    requires suits { AreExtentEdits (Some body.now) (edits_of edits.now) }
    requires level { (turn_of turning.now).twig.level ≡ 2 }
    ensures { IfOk result (λ v. map count_of v.items
        ≡ twig_turning body.now (edits_of edits.now) (turn_of turning.now)) }
{
    let last = last_leaf(turning);
    let pieces = pieces_turned(alloc, body, edits, &turning.twig, last)?;
    let mut twigs = Vec::with_capacity(alloc, 1)?;
    twigs.push((turning.twig.id(), extra_twigs(pieces.as_slice())))?;
    Ok(twigs)
}

// The last of a turn's leaves; the twig, where there is none.
fn last_leaf(turning: &Turning) -> &Cell
    ensures { result.now ≡ last_of (turn_of turning.now) }
{
    let leaves = turning.leaves.as_slice();
    if leaves.is_empty() {
        return &turning.twig;
    }
    &leaves[leaves.len() - 1]
}

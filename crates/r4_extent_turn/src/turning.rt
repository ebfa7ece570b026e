//! The turn of a twig of a body that comes out of tails to extents (docs/volume.md, "Bodies in
//! extents").

ghost use Rattle.std.specs.Prelude.{◌≡◌, ◌+◌, ◌++◌, ◌≤◌, Contains, IfOk, OnOk, drop, length, map};
ghost use Rattle.std.specs.Prelude.{take, false, true};
ghost use Rattle.std.specs.Arc.{arc_value};
ghost use Rattle.std.specs.Option.{option_map};
ghost use Rattle.r4_base.specs.Key.{key_of_rank, rank};
ghost use Rattle.r4_base.specs.Tree.{Root as TreeRoot, Store};
ghost use Rattle.r4_base.specs.Value.{Value};
ghost use Rattle.r4_build.specs.r4_branch.declared.piece.TwigPiece.{TwigPiece as PieceSeen};
ghost use Rattle.r4_content.specs.Held.{edits_of};
ghost use Rattle.r4_extent_build.specs.r4_edit.Extents.{pointer_to};
ghost use Rattle.r4_extent_build.specs.Setting.{is_hole_of};
ghost use Rattle.r4_extent_build.specs.r4_extent_demands.Sizes.{IsSizedBody};
ghost use Rattle.r4_extent_build.specs.r4_extent_edit.Between.{pieces_over};
ghost use Rattle.r4_extent_build.specs.r4_graft.Splices.{IsBorder};
ghost use Rattle.r4_build.specs.r4_leaf.Units.{is_between};
ghost use Rattle.r4_build.specs.r4_path.TwigPieces.{twig_pieces};
ghost use Rattle.r4_build.specs.r4_reach.Touched.{Body, first_byte};
ghost use Rattle.r4_extent_build.specs.r4_twig_work.Regrafting.{beside_of};
ghost use Rattle.r4_base.specs.declared.key.Key.{Key as KeySeen};
ghost use Rattle.r4_extent_turn.specs.Turning.{IsTurnFor, IsTurningBody, left_pointer, told_extent};
ghost use Rattle.r4_extent_turn.specs.TurningIn.{CanTurnOut, HasTurnedOut, IsMadeFor};
ghost use Rattle.r4_extent_turn.specs.TurningIn.{numbers_to_turn, turn_of};

use crate::blocks::number_each;
use crate::keeping::ends_kept;
use crate::tails::tails_in;
use r4_base::{Key, Memory, NodeId};
use r4_build::{
    LeafParts, add, add_pointer, cells_of, pieces_of_cell, pieces_parted, place_of, splice,
};
use r4_content::{Edits, Interval};
use r4_extent_build::{
    Below, Cell, Fresh, KeyRange, NumberedTwig, SizedBody, TwigPart, TwigPiece, WorkingSet,
    pieces_after, regraft,
};
use std::alloc::Global;
use std::sync::Arc;

/// How many numbers the twig has of its own, for the twigs and nodes that may come beside it and
/// above.
const OWN_NUMBERS: u64 = 64;

/// A standing twig, and its leaves that have a key of the blocks that come, in their order. The
/// cells are shared.
#[derive(Drop)]
pub struct Turning {
    pub twig: Arc<Cell>,
    pub leaves: Vec<Arc<Cell>>,
}

// What is made for a turn: the twig's pieces, what goes and comes below it, and what stays of the
// leaves.
struct Made {
    pieces: Vec<TwigPiece>,
    below: Below,
    cells: Vec<Arc<Cell>>,
}

/// Packs a standing twig anew, so that a body comes out of its leaves, or had no bytes, to an
/// extent. Its blocks are made of the bytes that stood in the leaves, of those that the edits set
/// over them, and of zeros. What the first leaf has below the extent stays, unless the leaf begins
/// there, and keeps its number; what the last one has behind it stays in a leaf from the first of
/// these units on; the leaves between them go. The blocks take the first numbers, two more are for
/// what stays of the last leaf, and 64 are the twig's own, whether it needs them or not. It gives the
/// cells that come in the place of the leaves. The only error is want of memory; then numbers may
/// have been taken (docs/volume.md, "Bodies in extents").
pub fn turn_out(
    alloc: Global,
    set: &mut WorkingSet,
    body: &SizedBody,
    edits: &Edits,
    turning: &Turning,
    fresh: &mut Fresh,
) -> Result<Vec<Arc<Cell>>, Memory>
    requires sized { IsSizedBody body.now }
    requires can { (t : Store Value) × ((r : TreeRoot) × CanTurnOut body.now (edits_of edits.now)
        t r (turn_of turning.now) fresh.old set.old) }
    ensures { IfOk result (λ v. HasTurnedOut body.now (edits_of edits.now) (turn_of turning.now)
        fresh.old fresh.new set.old set.new (map (λ c. arc_value c) v.items)) }
{
    // the end of the numbers is a u64, so no sum up to there overflows
    let _end = fresh.end;
    let Made {
        pieces,
        below,
        cells,
    } = made_for(alloc, body, edits, turning, fresh)?;
    let mut own = Fresh {
        next: fresh.next,
        end: fresh.next + OWN_NUMBERS,
    };
    regraft(
        alloc,
        set,
        &turning.twig.lo(),
        pieces.as_slice(),
        below,
        &mut own,
    )?;
    fresh.next += OWN_NUMBERS;
    Ok(cells)
}

// Makes all that the turn needs. It takes the numbers of the blocks, and two for what stays of the
// last leaf.
fn made_for(
    alloc: Global,
    body: &SizedBody,
    edits: &Edits,
    turning: &Turning,
    fresh: &mut Fresh,
) -> Result<Made, Memory>
    requires turning { (first : KeySeen) × IsTurningBody body.now first }
    requires turn { IsTurnFor body.now (turn_of turning.now) }
    requires numbers { fresh.old.next + numbers_to_turn body.now (edits_of edits.now)
        ≤ fresh.old.end }
    ensures { IfOk result (λ m. IsMadeFor body.now (edits_of edits.now) (turn_of turning.now)
        fresh.old fresh.new m.pieces.items (beside_of m.below)
        (map (λ c. arc_value c) m.cells.items)) }
{
    let KeyRange { from, to } = body.coming();
    let told = told_extent(alloc, body, edits, &turning.twig)?;
    let leaves = turning.leaves.as_slice();
    let tails = tails_in(alloc, leaves, Interval { from, to })?;
    let extent = number_each(alloc, &tails, edits, told.as_slice(), fresh)?;
    let kept = ends_kept(alloc, leaves, &from, &to, fresh)?;
    let pieces = pieces_with(alloc, turning, extent.pieces.as_slice(), &kept, &to)?;
    let new = cells_of(alloc, kept)?;
    let cells = all_of(alloc, new.as_slice())?;
    let below = Below {
        old: all_of(alloc, leaves)?,
        new,
        blocks: extent.blocks,
    };
    Ok(Made {
        pieces,
        below,
        cells,
    })
}

// The pieces of the extent, as they tell its room: those that the twig has more after the edits. It
// has no others, since none of its holes is the body's.
fn told_extent(
    alloc: Global,
    body: &SizedBody,
    edits: &Edits,
    twig: &Cell,
) -> Result<Vec<TwigPiece>, Memory>
    requires turning { (first : KeySeen) × IsTurningBody body.now first }
    requires level { twig.now.level ≡ 2 }
    requires within { is_between (rank twig.now.lo) (rank twig.now.hi) (first_byte body.now)
        ≡ true }
    requires no_holes { (p : PieceSeen) → Contains (twig_pieces twig.now) p
        → is_hole_of body.now p ≡ false }
    ensures { IfOk result (λ v. v.items ≡ told_extent body.now (edits_of edits.now)) }
{
    let old = pieces_of_cell(alloc, twig)?;
    let all = pieces_after(alloc, Some(body), edits, twig, &[])?;
    let at = place_of(old.as_slice(), &body.first_byte());
    some_of(alloc, all.as_slice(), at, all.len() - old.len())
}

// So many of the pieces, from one on.
fn some_of(
    alloc: Global,
    pieces: &[TwigPiece],
    at: usize,
    count: usize,
) -> Result<Vec<TwigPiece>, Memory>
    requires { at + count ≤ length pieces.now }
    ensures { IfOk result (λ v. v.items ≡ take count (drop at pieces.now)) }
{
    let mut some = Vec::with_capacity(alloc, count)?;
    some.extend_from_slice(&pieces[at..at + count])?;
    Ok(some)
}

// The twig's pieces, with an extent in the place of its leaves, which ends at a key, between
// pointers to what stays of them.
fn pieces_with(
    alloc: Global,
    turning: &Turning,
    extent: &[TwigPiece],
    kept: &LeafParts,
    to: &Key,
) -> Result<Vec<TwigPiece>, Memory>
    requires turn { (b : Body) × IsTurnFor b (turn_of turning.now) }
    ensures { IfOk result (λ v. v.items
        ≡ pieces_over (rank (turn_of turning.now).leaf.lo) (rank to.now)
        (left_pointer (option_map (λ c. arc_value c) kept.now.left)
        ++ (extent.now ++ pointer_to (option_map (λ c. arc_value c) kept.now.right)))
        (turn_of turning.now).twig) }
{
    let mut others = Vec::new(alloc);
    add_left(&mut others, &kept.left)?;
    others.extend_from_slice(extent)?;
    add_pointer(&mut others, &kept.right)?;
    let from = turning.leaves[0].lo();
    pieces_put_over(alloc, &turning.twig, &from, to, others.as_slice())
}

// Puts a pointer to what stays of the first leaf behind the pieces, if something does.
fn add_left(pieces: &mut Vec<TwigPiece>, to: &Option<Arc<Cell>>) -> Result<(), Memory>
    ensures { OnOk result (pieces.new.items
        ≡ pieces.old.items ++ left_pointer (option_map (λ c. arc_value c) to.now)) }
{
    let Some(cell) = to else {
        return Ok(());
    };
    pieces.push(pointer(cell.lo(), cell.id()))?;
    Ok(())
}

// The pointer to a leaf that begins with a key.
fn pointer(key: Key, id: NodeId) -> TwigPiece
    ensures { result ≡ record {
      key = key_of_rank (rank key);
      part = TwigPart.Pointer (record { 0 = id.0 });
    } }
{
    TwigPiece {
        key,
        part: TwigPart::Pointer(id),
    }
}

// A twig's pieces, parted at both keys, with others in the place of those between them. The first
// key lies at a border of blocks.
#[tactic(auto, using(r4_graft::proofs::Placed::place_within))]
fn pieces_put_over(
    alloc: Global,
    twig: &Cell,
    from: &Key,
    to: &Key,
    others: &[TwigPiece],
) -> Result<Vec<TwigPiece>, Memory>
    requires level { twig.now.level ≡ 2 }
    requires border { IsBorder (rank from.now) (twig_pieces twig.now) }
    ensures { IfOk result (λ v. v.items
        ≡ pieces_over (rank from.now) (rank to.now) others.now twig.now) }
{
    let pieces = pieces_parted(alloc, twig, from, to)?;
    let at = place_of(pieces.as_slice(), from);
    let end = place_of(pieces.as_slice(), to);
    let all = splice(alloc, pieces.as_slice(), at, end, others)?;
    Ok(all)
}

// All of these cells, shared.
fn all_of(alloc: Global, cells: &[Arc<Cell>]) -> Result<Vec<Arc<Cell>>, Memory>
    ensures { IfOk result (λ v. map (λ c. arc_value c) v.items
        ≡ map (λ c. arc_value c) cells.now) }
{
    let mut all = Vec::with_capacity(alloc, cells.len())?;
    add(&mut all, cells)?;
    Ok(all)
}

//! The pieces of a twig after a command (docs/volume.md, "Reach").

ghost use Rattle.std.specs.Prelude.{◌≡◌, ◌+◌, ◌*◌, ◌^◌, ◌≤◌, ◌++◌, ◌∷◌, [], All, IfOk, IfSome};
ghost use Rattle.std.specs.Prelude.{OnOk, None, length, map, true};
ghost use Rattle.std.specs.List.{flat_map};
ghost use Rattle.std.specs.Option.{option_copied};
ghost use Rattle.r4_base.specs.Key.{minor_of, offset_of, rank};
ghost use Rattle.r4_graft.specs.r4_branch.Pieces.{twig_bytes};
ghost use Rattle.r4_bodies.specs.r4_cell.Seen.{node_of};
ghost use Rattle.r4_content.specs.Edited.{Edits as Changes};
ghost use Rattle.r4_content.specs.Held.{edits_of};
ghost use Rattle.r4_bodies.specs.r4_leaf_edits.Suiting.{SuitLeaves};
ghost use Rattle.r4_bodies.specs.r4_marking.Marks.{heard_seen};
ghost use Rattle.r4_bodies.specs.r4_leaf_edits.r4_reach.Needs.{filled, gets_bytes, is_hole_part, pieces_after, runs, with_coming};
ghost use Rattle.r4_bodies.specs.r4_leaf.Units.{is_between};
ghost use Rattle.r4_bodies.specs.r4_leaf_edits.r4_reach.Touched.{coming};
ghost use Rattle.r4_bodies.specs.r4_leaf_edits.r4_path.TwigPieces.{ArePiecesOf};
ghost use Rattle.r4_extent_demands.specs.Pieces.{AreInOrder, HasRoom, remade};
ghost use Rattle.r4_extent_demands.specs.Sizes.{IsSized, IsSizedBody};

use crate::cutting::{cut, without_gone};
use crate::running::add_blocks;
use crate::sized_body::SizedBody;
use r4_base::Memory;
use r4_bodies::{Cell, Heard, KeyRange, has, pieces_of_cell};
use r4_content::Edits;
use r4_graft::{TwigPart, TwigPiece, place_of, splice};
use std::alloc::Global;

/// The pieces that a twig has after edits, where the leaves below it ask for this: without the pointers to leaves that
/// go and without the blocks of the body that go; holes of the body with the blocks in them that get bytes; and with
/// the blocks of the body that come, where the first of them lies in the twig's range. No step is taken for a byte, and
/// none for each block of a hole. They need no more than 12,800,000 bytes in twigs, where bytes are put below the
/// greatest size of a file. `Memory` where there was not enough (docs/volume.md, "Reach").
pub fn pieces_after(
    alloc: Global,
    body: Option<&SizedBody>,
    edits: &Edits,
    twig: &Cell,
    heard: &[Heard],
) -> Result<Vec<TwigPiece>, Memory>
    requires twig { twig.now.level ≡ 2 }
    requires sized { IsSized (option_copied body) }
    ensures pieces { IfOk result (λ v. v.items ≡ pieces_after (option_copied body.entry)
        (edits_of edits.now) (node_of twig.now) (map heard_seen heard.now)) }
    ensures few { SuitLeaves (2 ^ 30) (edits_of edits.now)
        → IfOk result (λ v. twig_bytes v.items ≤ 12800000) }
{
    let all = pieces_of_cell(alloc, twig)?;
    let pieces = all.as_slice();
    let left = without_gone(alloc, pieces, heard)?;
    match body {
        None => Ok(left),
        Some(body) => {
            let rest = left.as_slice();
            let made = remade(alloc, body, edits, twig, pieces, rest)?;
            Ok(made)
        }
    }
}

// These of a twig's pieces without the blocks that go, and with those that come. All pieces of the twig are given too.
fn remade(
    alloc: Global,
    body: &SizedBody,
    edits: &Edits,
    twig: &Cell,
    all: &[TwigPiece],
    left: &[TwigPiece],
) -> Result<Vec<TwigPiece>, Memory>
    requires sized { IsSizedBody body.now }
    requires pieces { ArePiecesOf twig.now all.now }
    requires room { All HasRoom left.now }
    requires order { AreInOrder (rank twig.now.lo) left.now }
    requires short { 16 * length left.now ≤ 4068 }
    ensures pieces { IfOk result (λ v. v.items
        ≡ remade body.now (edits_of edits.now) (node_of twig.now) left.now) }
    ensures few { SuitLeaves (2 ^ 30) (edits_of edits.now)
        → IfOk result (λ v. twig_bytes v.items ≤ 12800000) }
{
    // Where the body begins tells how many pieces it makes at most.
    let _ = body.first_byte();
    let cut = cut(alloc, body, twig, all, left)?;
    let filled = fill_each(alloc, body, edits, cut.as_slice())?;
    let pieces = with_coming(alloc, body, edits, twig, filled.as_slice())?;
    Ok(pieces)
}

// The pieces, with blocks in the holes of the body where bytes come.
fn fill_each(
    alloc: Global,
    body: &SizedBody,
    edits: &Edits,
    pieces: &[TwigPiece],
) -> Result<Vec<TwigPiece>, Memory>
    requires sized { IsSizedBody body.now }
    requires room { All HasRoom pieces.now }
    ensures { IfOk result (λ v. v.items
        ≡ flat_map (filled body.now (edits_of edits.now)) pieces.now) }
{
    let mut filled = Vec::new(alloc);
    for piece in pieces {
        add_filled(&mut filled, body, edits, piece)?;
    }
    Ok(filled)
}

// Puts a piece behind the others, or where it is a hole of the body, its blocks.
fn add_filled(
    pieces: &mut Vec<TwigPiece>,
    body: &SizedBody,
    edits: &Edits,
    piece: &TwigPiece,
) -> Result<(), Memory>
    requires sized { IsSizedBody body.now }
    requires room { HasRoom piece.now }
    ensures { OnOk result (pieces.new.items
        ≡ pieces.old.items ++ filled body.now (edits_of edits.now) piece.now) }
{
    match hole_of(body, piece) {
        Some(width) => {
            add_blocks(pieces, body, edits, piece.key, width)?;
            Ok(())
        }
        None => {
            pieces.push(*piece)?;
            Ok(())
        }
    }
}

/// How many blocks a piece has, where it is a hole of the body.
pub(crate) fn hole_of(body: &SizedBody, piece: &TwigPiece) -> Option<u64>
    requires sized { IsSizedBody body.now }
    requires room { HasRoom piece.now }
    ensures none { result ≡ None → (e : Changes) → filled body.now e piece.now ≡ piece.now ∷ [] }
    ensures hole { IfSome result (λ n. (e : Changes) → filled body.now e piece.now
        ≡ runs (gets_bytes body.now e) (rank piece.now.key) n) }
    ensures fits { IfSome result (λ n. (minor_of piece.now.key ≡ 4)
        × (offset_of piece.now.key + 4096 * n ≤ 2 ^ 64)) }
    ensures is { IfSome result (λ n. is_hole_part piece.now.part ≡ true) }
{
    let TwigPart::Blocks(unit) = piece.part else {
        return None;
    };
    if unit.start != 0 {
        return None;
    }
    if !body.has(piece.key) {
        return None;
    }
    Some(unit.width)
}

// The pieces, with the blocks of the body that come, where the first of them lies in the twig's range.
fn with_coming(
    alloc: Global,
    body: &SizedBody,
    edits: &Edits,
    twig: &Cell,
    pieces: &[TwigPiece],
) -> Result<Vec<TwigPiece>, Memory>
    requires { IsSizedBody body.now }
    ensures { IfOk result (λ v. v.items
        ≡ with_coming body.now (edits_of edits.now) (node_of twig.now) pieces.now) }
{
    if !body.is_spread() || !comes_first(body, twig) {
        return copied(alloc, pieces);
    }
    let from = body.coming().from;
    let mut blocks = Vec::new(alloc);
    add_blocks(&mut blocks, body, edits, from, body.blocks_coming())?;
    let at = place_of(pieces, &from);
    let pieces = splice(alloc, pieces, at, at, blocks.as_slice())?;
    Ok(pieces)
}

/// Whether the first key of the blocks that come lies in a twig's range (docs/volume.md, "Reach").
pub fn comes_first(body: &SizedBody, twig: &Cell) -> bool
    requires { IsSizedBody body.now }
    ensures { result ≡ is_between (node_of twig.now).lo (node_of twig.now).hi (coming body.now).0 }
{
    let range = KeyRange {
        from: twig.lo(),
        to: twig.hi(),
    };
    has(&range, body.coming().from)
}

// The same pieces.
fn copied(alloc: Global, pieces: &[TwigPiece]) -> Result<Vec<TwigPiece>, Memory>
    ensures { IfOk result (λ v. v.items ≡ pieces.now) }
{
    let mut copies = Vec::new(alloc);
    copies.extend_from_slice(pieces)?;
    Ok(copies)
}

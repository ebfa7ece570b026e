//! The pieces of a twig with the numbers of the data blocks that come (docs/volume.md, "Bodies in extents").

ghost use Rattle.std.specs.Prelude.{◌≡◌, ◌+◌, ◌^◌, ◌<◌, ◌++◌, ◌∷◌, [], map, IfOk, OnOk, Some};
ghost use Rattle.std.specs.Arc.{arc_value};
ghost use Rattle.r4_base.specs.Key.{offset_of, rank};
ghost use Rattle.r4_content.specs.Held.{edits_of};
ghost use Rattle.r4_extent_demands.specs.r4_path.TwigPieces.{twig_pieces};
ghost use Rattle.r4_extent_demands.specs.r4_reach.Needs.{pieces_after};
ghost use Rattle.r4_extent_demands.specs.r4_cell.Seen.{node_of};
ghost use Rattle.r4_extent_demands.specs.Sizes.{IsSizedBody};
ghost use Rattle.r4_extent_blocks.specs.Setting.{new_cell};
ghost use Rattle.r4_extent_build.specs.Numbering.{CanNumber, IsNumbered, block_of};
ghost use Rattle.r4_extent_build.specs.Numbering.{has_block_at, is_coming};
ghost use Rattle.r4_extent_build.specs.Numbering.{is_told_block};

use r4_base::{Key, Memory, UNPLACED, Unit};
use r4_content::Edits;
use r4_extent_blocks::{Cell, Fresh, new_block};
use r4_extent_demands::{SizedBody, TwigPart, TwigPiece, pieces_after};
use r4_twig_turns::{pieces_of_cell, take_number};
use std::alloc::Global;
use std::sync::Arc;

/// The pieces that a twig gets, in which each data block that comes has a number of its own, and the cells of these
/// blocks, in the order of their keys.
#[derive(Drop)]
pub struct NumberedTwig {
    pub pieces: Vec<TwigPiece>,
    pub blocks: Vec<Arc<Cell>>,
}

/// The pieces that a twig has after edits of a body in extents, with true numbers: the data blocks that come take the
/// next ones, in the order of their keys, and each is made of the bytes that the edits set there, and of zeros. The only
/// error is want of memory; then numbers may have been taken (docs/volume.md, "Bodies in extents").
pub fn numbered(
    alloc: Global,
    body: &SizedBody,
    edits: &Edits,
    twig: &Cell,
    fresh: &mut Fresh,
) -> Result<NumberedTwig, Memory>
    requires twig { twig.now.level ≡ 2 }
    requires sized { IsSizedBody body.now }
    requires can { CanNumber (twig_pieces twig.now)
        (pieces_after (Some body.now) (edits_of edits.now) (node_of twig.now) []) fresh.old }
    ensures { IfOk result (λ n. IsNumbered (twig_pieces twig.now)
        (pieces_after (Some body.now) (edits_of edits.now) (node_of twig.now) [])
        (edits_of edits.now) fresh.old fresh.new n.pieces.items
        (map (λ c. arc_value c) n.blocks.items)) }
{
    let old = pieces_of_cell(alloc, twig)?;
    let pieces = pieces_after(alloc, Some(body), edits, twig, &[])?;
    let made = number_each(alloc, edits, old.as_slice(), pieces.as_slice(), fresh)?;
    Ok(made)
}

// These pieces with numbers. The twig's old pieces are given too.
fn number_each(
    alloc: Global,
    edits: &Edits,
    old: &[TwigPiece],
    pieces: &[TwigPiece],
    fresh: &mut Fresh,
) -> Result<NumberedTwig, Memory>
    requires { CanNumber old.now pieces.now fresh.old }
    ensures { IfOk result (λ n. IsNumbered old.now pieces.now (edits_of edits.now)
        fresh.old fresh.new n.pieces.items (map (λ c. arc_value c) n.blocks.items)) }
{
    let mut made = NumberedTwig {
        pieces: Vec::new(alloc),
        blocks: Vec::new(alloc),
    };
    for piece in pieces {
        if is_coming(old, piece) {
            add_block(alloc, &mut made, edits, &piece.key, fresh)?;
        } else {
            made.pieces.push(*piece)?;
        }
    }
    Ok(made)
}

// Puts a block that comes behind the other pieces, and its cell behind the others.
fn add_block(
    alloc: Global,
    made: &mut NumberedTwig,
    edits: &Edits,
    key: &Key,
    fresh: &mut Fresh,
) -> Result<(), Memory>
    requires number { fresh.old.next < fresh.old.end }
    requires near { offset_of key.now + 4096 < 2 ^ 64 }
    ensures pieces { OnOk result (made.new.pieces.items
        ≡ made.old.pieces.items ++ block_of key.now fresh.old.next ∷ []) }
    ensures block { OnOk result (map (λ c. arc_value c) made.new.blocks.items
        ≡ map (λ c. arc_value c) made.old.blocks.items
        ++ new_cell (edits_of edits.now) fresh.old.next key.now ∷ []) }
    ensures left { OnOk result (fresh.new ≡ record fresh.old { next = fresh.old.next + 1 }) }
{
    let id = take_number(fresh);
    made.pieces.push(TwigPiece {
        key: *key,
        part: TwigPart::Blocks(Unit {
            start: id.0,
            width: 1,
        }),
    })?;
    let block = new_block(alloc, id, *key, edits)?;
    made.blocks.push(block)?;
    Ok(())
}

// Whether a piece stands for a block that comes.
fn is_coming(old: &[TwigPiece], piece: &TwigPiece) -> bool
    ensures { result ≡ is_coming old.now piece.now }
{
    is_told_block(&piece.part) && !has_block_at(old, &piece.key)
}

// Whether one of the pieces is at a key, and is a block of the number that stands for one that comes.
fn has_block_at(old: &[TwigPiece], key: &Key) -> bool
    ensures { result ≡ has_block_at (rank key.now) old.now }
{
    old.iter()
        .any(|q| q.key.is_same(*key) && is_told_block(&q.part))
}

// Whether a part is one block of the number that stands for one that comes.
fn is_told_block(part: &TwigPart) -> bool
    ensures { result ≡ is_told_block part.now }
{
    match part {
        TwigPart::Pointer(_) => false,
        TwigPart::Blocks(unit) => unit.start == UNPLACED && unit.width == 1,
    }
}

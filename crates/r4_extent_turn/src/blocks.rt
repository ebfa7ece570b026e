//! The data blocks that come with a body (docs/volume.md, "Bodies in extents").

ghost use Rattle.std.specs.Prelude.{◌≡◌, ◌+◌, ◌^◌, ◌<◌, ◌++◌, ◌∷◌, [], IfOk, OnOk, map};
ghost use Rattle.std.specs.Arc.{arc_value};
ghost use Rattle.r4_base.specs.Key.{offset_of};
ghost use Rattle.r4_content.specs.Held.{edits_of};
ghost use Rattle.r4_extent_build.specs.r4_extent_blocks.Setting.{new_cell};
ghost use Rattle.r4_extent_build.specs.Numbering.{CanNumber, IsNumbered, block_of, is_told_block};
ghost use Rattle.r4_extent_turn.specs.Turning.{set_over};

use r4_base::{Key, Memory, NodeId, UNPLACED, Unit};
use r4_build::take_number;
use r4_content::Edits;
use r4_extent_build::{
    Cell, Fresh, NumberedTwig, TwigPart, TwigPiece, new_block, overwritten, sets_bytes,
};
use std::alloc::Global;
use std::sync::Arc;

/// The pieces of an extent with true numbers: each block that comes takes the next one, and is made
/// of the bytes of tails, of those that edits set over them, and of zeros. The only error is want
/// of memory; then numbers may have been taken.
pub(crate) fn number_each(
    alloc: Global,
    tails: &Edits,
    edits: &Edits,
    pieces: &[TwigPiece],
    fresh: &mut Fresh,
) -> Result<NumberedTwig, Memory>
    requires { CanNumber [] pieces.now fresh.old }
    ensures { IfOk result (λ n. IsNumbered [] pieces.now
        (set_over (edits_of tails.now) (edits_of edits.now))
        fresh.old fresh.new n.pieces.items (map (λ c. arc_value c) n.blocks.items)) }
{
    let mut made = NumberedTwig {
        pieces: Vec::new(alloc),
        blocks: Vec::new(alloc),
    };
    for piece in pieces {
        if is_told_block(&piece.part) {
            add_block(alloc, &mut made, tails, edits, &piece.key, fresh)?;
        } else {
            made.pieces.push(*piece)?;
        }
    }
    Ok(made)
}

// Puts a block that comes behind the other pieces, and its cell behind the others.
fn add_block(
    alloc: Global,
    made: &mut NumberedTwig,
    tails: &Edits,
    edits: &Edits,
    key: &Key,
    fresh: &mut Fresh,
) -> Result<(), Memory>
    requires number { fresh.old.next < fresh.old.end }
    requires near { offset_of key.now + 4096 < 2 ^ 64 }
    ensures pieces { OnOk result (made.new.pieces.items
        ≡ made.old.pieces.items ++ block_of key.now fresh.old.next ∷ []) }
    ensures block { OnOk result (map (λ c. arc_value c) made.new.blocks.items
        ≡ map (λ c. arc_value c) made.old.blocks.items
        ++ new_cell (set_over (edits_of tails.now) (edits_of edits.now)) fresh.old.next key.now
        ∷ []) }
    ensures left { OnOk result (fresh.new ≡ record fresh.old { next = fresh.old.next + 1 }) }
{
    let id = take_number(fresh);
    made.pieces.push(TwigPiece {
        key: *key,
        part: TwigPart::Blocks(Unit {
            start: id.0,
            width: 1,
        }),
    })?;
    let block = block_over(alloc, id, *key, tails, edits)?;
    made.blocks.push(block)?;
    Ok(())
}

// A data block of the bytes of tails, and of those that edits set over them. Few blocks have bytes
// of tails, and no other one is made twice.
fn block_over(
    alloc: Global,
    id: NodeId,
    key: Key,
    tails: &Edits,
    edits: &Edits,
) -> Result<Arc<Cell>, Memory>
    requires { offset_of key + 4096 < 2 ^ 64 }
    ensures { IfOk result (λ c. arc_value c
        ≡ new_cell (set_over (edits_of tails.now) (edits_of edits.now)) id.0 key) }
{
    if !sets_bytes(tails, &key) {
        return new_block(alloc, id, key, edits);
    }
    let tail = new_block(alloc, id, key, tails)?;
    overwritten(alloc, &tail, edits)
}

// Whether a part is one block of the number that stands for one that comes.
fn is_told_block(part: &TwigPart) -> bool
    ensures { result ≡ is_told_block part.now }
{
    match part {
        TwigPart::Pointer(_) => false,
        TwigPart::Blocks(unit) => unit.start == UNPLACED && unit.width == 1,
    }
}

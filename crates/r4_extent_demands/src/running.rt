//! Blocks of a body, one after the other, as pieces of a twig (docs/volume.md, "Reach").

ghost use Rattle.std.specs.Prelude.{◌≡◌, ◌+◌, ◌*◌, ◌^◌, ◌≤◌, ◌++◌, [], ◌∷◌, OnOk};
ghost use Rattle.r4_base.specs.Key.{minor_of, offset_of, rank};
ghost use Rattle.r4_content.specs.Held.{edits_of};
ghost use Rattle.r4_bodies.specs.r4_leaf_edits.r4_reach.Needs.{gets_bytes, runs};
ghost use Rattle.r4_extent_demands.specs.Pieces.{block_at, hole_at};
ghost use Rattle.r4_extent_demands.specs.Sizes.{IsSizedBody};

use crate::gaining::blocks_before;
use crate::sized_body::SizedBody;
use r4_base::{BLOCK_BYTES, Key, Memory, UNPLACED, Unit};
use r4_content::Edits;
use r4_graft::{TwigPart, TwigPiece};

/// Puts so many blocks, from a key on, behind the other pieces: each that gets bytes is a unit of its own, of a new
/// block, and what is between them is a hole.
pub(crate) fn add_blocks(
    pieces: &mut Vec<TwigPiece>,
    body: &SizedBody,
    edits: &Edits,
    from: Key,
    count: u64,
) -> Result<(), Memory>
    requires sized { IsSizedBody body.now }
    requires body { minor_of from ≡ 4 }
    requires fits { offset_of from + 4096 * count ≤ 2 ^ 64 }
    ensures { OnOk result (pieces.new.items ≡ pieces.old.items
        ++ runs (gets_bytes body.now (edits_of edits.now)) (rank from) count) }
{
    let mut done = 0;
    while done < count {
        let key = from.behind(BLOCK_BYTES * done);
        let hole = blocks_before(body, edits, key, count - done);
        add_hole(pieces, key, hole)?;
        if hole == count - done {
            return Ok(());
        }
        add_block(pieces, key.behind(BLOCK_BYTES * hole))?;
        done += hole + 1;
    }
    Ok(())
}

// Puts so many blocks of a hole, if any, behind the other pieces.
fn add_hole(pieces: &mut Vec<TwigPiece>, key: Key, width: u64) -> Result<(), Memory>
    ensures { OnOk result (pieces.new.items ≡ pieces.old.items ++ hole_at key width) }
{
    if width > 0 {
        pieces.push(TwigPiece {
            key,
            part: TwigPart::Blocks(Unit { start: 0, width }),
        })?;
    }
    Ok(())
}

// Puts a block that comes behind the other pieces.
fn add_block(pieces: &mut Vec<TwigPiece>, key: Key) -> Result<(), Memory>
    ensures { OnOk result (pieces.new.items ≡ pieces.old.items ++ block_at key ∷ []) }
{
    let unit = Unit {
        start: UNPLACED,
        width: 1,
    };
    pieces.push(TwigPiece {
        key,
        part: TwigPart::Blocks(unit),
    })?;
    Ok(())
}

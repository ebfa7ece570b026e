//! Pieces that are parted at a key, also where it is no border of blocks (docs/volume.md, "Reach").

ghost use Rattle.std.specs.Prelude.{◌≡◌, ◌+◌, ◌-◌, ◌*◌, ◌/◌, ◌<◌, ◌≤◌, ◌^◌, ◌++◌, ◌&&◌, nat_lt};
ghost use Rattle.std.specs.Prelude.{All, IfOk, OnOk};
ghost use Rattle.std.specs.Prelude.{None, Some, if◌then◌else◌};
ghost use Rattle.r4_base.specs.Extents.{unit_past};
ghost use Rattle.r4_base.specs.Key.{offset_of, rank};
ghost use Rattle.r4_graft.specs.Splices.{parted, parted_piece};
ghost use Rattle.r4_extent_demands.specs.Pieces.{HasRoom};

use r4_base::{BLOCK_BYTES, Key, Memory, Unit};
use r4_graft::{TwigPart, TwigPiece};
use std::alloc::Global;

/// Pieces of which each is parted in two where the key lies within its blocks: before the block that has the key.
/// `Memory` where there was not enough (docs/volume.md, "Reach").
pub fn part_each(alloc: Global, pieces: &[TwigPiece], key: &Key) -> Result<Vec<TwigPiece>, Memory>
    requires { All HasRoom pieces.now }
    ensures items { IfOk result (λ v. v.items ≡ parted (rank key.now) pieces.now) }
    ensures room { IfOk result (λ v. All HasRoom v.items) }
{
    let mut parts = Vec::new(alloc);
    for piece in pieces {
        add_parts(&mut parts, *piece, key)?;
    }
    Ok(parts)
}

// Puts the parts of a piece behind the others.
fn add_parts(parts: &mut Vec<TwigPiece>, piece: TwigPiece, key: &Key) -> Result<(), Memory>
    requires { HasRoom piece }
    ensures { OnOk result (parts.new.items ≡ parts.old.items ++ parted_piece (rank key.now) piece) }
{
    let TwigPart::Blocks(unit) = piece.part else {
        parts.push(piece)?;
        return Ok(());
    };
    let Some(blocks) = blocks_before(&piece.key, unit.width, key) else {
        parts.push(piece)?;
        return Ok(());
    };
    let first = Unit {
        start: unit.start,
        width: blocks,
    };
    parts.push(TwigPiece {
        key: piece.key,
        part: TwigPart::Blocks(first),
    })?;
    parts.push(TwigPiece {
        key: piece.key.behind(BLOCK_BYTES * blocks),
        part: TwigPart::Blocks(past(&unit, blocks)),
    })?;
    Ok(())
}

/// How many whole blocks of so many, from a key on, end by another key, where this lies within them.
#[tactic(auto, unfolding(r4_base::specs::Key::rank))]
pub(crate) fn blocks_before(key: &Key, width: u64, end: &Key) -> Option<u64>
    requires { offset_of key.now + 4096 * width ≤ 2 ^ 64 }
    ensures { result ≡ (if nat_lt (rank key.now) (rank end.now)
        && nat_lt (rank end.now) (rank key.now + 4096 * width)
        then Some ((rank end.now - rank key.now) / 4096) else None) }
{
    let [el0, el1, el2, from] = key.el;
    if [el0, el1, el2] != [end.el[0], end.el[1], end.el[2]] || end.el[3] <= from {
        return None;
    }
    let blocks = (end.el[3] - from) / BLOCK_BYTES;
    (blocks < width).then_some(blocks)
}

// A unit's blocks from the one at a place on; what is left of a hole is a hole.
fn past(unit: &Unit, blocks: u64) -> Unit
    requires inside { blocks < unit.now.width }
    requires numbers { 2 ≤ unit.now.width → unit.now.start + unit.now.width ≤ 2 ^ 64 }
    ensures { result ≡ unit_past blocks unit.now }
{
    let start = if unit.start == 0 {
        0
    } else {
        unit.start + blocks
    };
    Unit {
        start,
        width: unit.width - blocks,
    }
}

//! Pieces that are parted at a key (docs/volume.md, "Twigs").

ghost use Rattle.std.specs.Prelude.{◌≡◌, ℕ, ◌+◌, ◌-◌, ◌*◌, ◌/◌, ◌^◌, ◌<◌, ◌≤◌, ◌++◌, ◌&&◌, nat_lt, None, Some, if◌then◌else◌, IfOk, OnOk};
ghost use Rattle.r4_base.specs.Extents.{unit_past};
ghost use Rattle.r4_base.specs.Key.{offset_of, rank, later};
ghost use Rattle.r4_branch.specs.Pieces.{Follow, IsSound};
ghost use Rattle.r4_graft.specs.Splices.{parted, parted_piece};

use r4_base::{BLOCK_BYTES, Key, Memory, Unit};
use r4_branch::{TwigPart, TwigPiece};
use std::alloc::Global;

/// A twig's pieces, of which one is parted in two where the key lies within its blocks.
pub fn part_at(alloc: Global, pieces: &[TwigPiece], key: &Key) -> Result<Vec<TwigPiece>, Memory>
    requires { (lo : ℕ) × (hi : ℕ) × Follow lo hi pieces.now }
    ensures { IfOk result (λ v. v.items ≡ parted (rank key.now) pieces.now) }
{
    let mut parted = Vec::new(alloc);
    for piece in pieces {
        add_parts(&mut parted, *piece, key)?;
    }
    Ok(parted)
}

/// Puts the parts of a piece behind the others.
fn add_parts(parts: &mut Vec<TwigPiece>, piece: TwigPiece, key: &Key) -> Result<(), Memory>
    requires { IsSound piece }
    ensures { OnOk result (parts.new.items ≡ parts.old.items ++ parted_piece (rank key.now) piece) }
{
    let TwigPart::Blocks(unit) = piece.part else {
        parts.push(piece)?;
        return Ok(());
    };
    let Some(blocks) = blocks_before(&piece.key, unit.width, key) else {
        parts.push(piece)?;
        return Ok(());
    };
    let first = Unit {
        start: unit.start,
        width: blocks,
    };
    parts.push(TwigPiece {
        key: piece.key,
        part: TwigPart::Blocks(first),
    })?;
    parts.push(TwigPiece {
        key: piece.key.behind(BLOCK_BYTES * blocks),
        part: TwigPart::Blocks(past(&unit, blocks)),
    })?;
    Ok(())
}

/// How many whole blocks of so many, from a key on, lie before another key, where this lies within them.
fn blocks_before(key: &Key, width: u64, end: &Key) -> Option<u64>
    requires { offset_of key.now + 4096 * width ≤ 2 ^ 64 }
    ensures { result ≡ (if nat_lt (rank key.now) (rank end.now) && nat_lt (rank end.now) (rank key.now + 4096 * width)
        then Some ((rank end.now - rank key.now) / 4096) else None) }
{
    let bytes = bytes_before(key, end)?;
    if bytes / BLOCK_BYTES < width {
        Some(bytes / BLOCK_BYTES)
    } else {
        None
    }
}

/// How many bytes of an object lie from a key on and before a later key of the object.
fn bytes_before(key: &Key, end: &Key) -> Option<u64>
    ensures bytes { (n : ℕ) → result ≡ Some n → rank end.now ≡ rank key.now + n }
    ensures some { (n : ℕ) → result ≡ Some n → 1 ≤ n }
    ensures none { result ≡ None → (n : ℕ) → offset_of key.now + n ≤ 2 ^ 64 → rank key.now < rank end.now
        → rank end.now < rank key.now + n → ⊥ }
{
    if key.el[0] != end.el[0] || key.el[1] != end.el[1] || key.el[2] != end.el[2] {
        return None;
    }
    if end.el[3] <= key.el[3] {
        return None;
    }
    Some(end.el[3] - key.el[3])
}

/// A unit's blocks from the one at a place on; what is left of a hole is a hole.
fn past(unit: &Unit, blocks: u64) -> Unit
    requires inside { blocks ≤ unit.now.width }
    requires fits { unit.now.start + blocks < 2 ^ 64 }
    ensures { result ≡ unit_past blocks unit.now }
{
    let start = if unit.start == 0 {
        0
    } else {
        unit.start + blocks
    };
    Unit {
        start,
        width: unit.width - blocks,
    }
}

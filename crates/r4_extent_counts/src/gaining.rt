//! How many blocks of a body get bytes (docs/volume.md, "Reach").

ghost use Rattle.std.specs.Prelude.{◌≡◌, ◌+◌, ◌-◌, ◌*◌, ◌/◌, ◌^◌, ◌≤◌, IfOk, sum_by};
ghost use Rattle.std.specs.Prelude.{All};
ghost use Rattle.r4_base.specs.Key.{minor_of, offset_of, rank};
ghost use Rattle.r4_extent_demands.specs.r4_cell.Seen.{node_of};
ghost use Rattle.r4_content.specs.Held.{edits_of};
ghost use Rattle.r4_extent_demands.specs.r4_reach.Needs.{gets_bytes};
ghost use Rattle.r4_extent_demands.specs.r4_reach.Touched.{coming};
ghost use Rattle.r4_extent_counts.specs.Coming.{come_to, filled_in, gaining};
ghost use Rattle.r4_extent_demands.specs.Pieces.{HasRoom};
ghost use Rattle.r4_extent_demands.specs.Sizes.{IsSizedBody};

use r4_base::{BLOCK_BYTES, Key, Memory};
use r4_content::Edits;
use r4_extent_demands::{Cell, SizedBody, TwigPart, TwigPiece, comes_first, gets_some};
use std::alloc::AllocError;

/// How many of so many blocks, from a key on, get bytes. They are counted by halves.
pub(crate) fn gaining(body: &SizedBody, edits: &Edits, from: Key, count: u64) -> u64
    requires sized { IsSizedBody body.now }
    requires body { minor_of from ≡ 4 }
    requires fits { offset_of from + 4096 * count ≤ 2 ^ 64 }
    ensures is { result ≡ gaining (gets_bytes body.now (edits_of edits.now)) (rank from) count }
    ensures few { result ≤ count }
{
    if count == 0 {
        return 0;
    }
    if !gets_some(body, edits, from, count) {
        return 0;
    }
    if count == 1 {
        return 1;
    }
    let half = count / 2;
    let first = gaining(body, edits, from, half);
    let behind = gaining(body, edits, from.behind(BLOCK_BYTES * half), count - half);
    first + behind
}

/// How many blocks come into the holes of a body among these pieces.
pub(crate) fn filled_in_all(
    body: &SizedBody,
    edits: &Edits,
    pieces: &[TwigPiece],
) -> Result<u64, Memory>
    requires sized { IsSizedBody body.now }
    requires room { All HasRoom pieces.now }
    ensures { IfOk result (λ n. n ≡ sum_by (filled_in body.now (edits_of edits.now)) pieces.now) }
{
    match pieces.split_first() {
        None => Ok(0),
        Some((first, rest)) => {
            let blocks = filled_in(body, edits, first);
            let others = filled_in_all(body, edits, rest)?;
            Ok(blocks.checked_add(others).ok_or(AllocError)?)
        }
    }
}

// How many blocks come into a piece, where it is a hole of the body.
fn filled_in(body: &SizedBody, edits: &Edits, piece: &TwigPiece) -> u64
    requires sized { IsSizedBody body.now }
    requires room { HasRoom piece.now }
    ensures { result ≡ filled_in body.now (edits_of edits.now) piece.now }
{
    let TwigPart::Blocks(unit) = piece.part else {
        return 0;
    };
    if unit.start != 0 {
        return 0;
    }
    if !body.has(piece.key) {
        return 0;
    }
    gaining(body, edits, piece.key, unit.width)
}

/// How many blocks come to a twig where no extent was: those of the body, where the first of their keys lies in the
/// twig's range.
pub(crate) fn come_to(body: &SizedBody, edits: &Edits, twig: &Cell) -> u64
    requires { IsSizedBody body.now }
    ensures is { result ≡ come_to body.now (edits_of edits.now) (node_of twig.now) }
    ensures few { result ≤ 2 ^ 18 }
{
    if !comes_first(body, twig) {
        return 0;
    }
    let count = body.blocks_coming();
    if count == 0 {
        return 0;
    }
    gaining(body, edits, body.coming().from, count)
}

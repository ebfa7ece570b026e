//! Pieces parted so that all that have certain keys come below one twig (docs/volume.md, "Bodies in extents").

ghost use Rattle.std.specs.Prelude.{◌≡◌, ◌≤◌, IfOk, IfSome, length, map, true};
ghost use Rattle.r4_row_gather.specs.Parting.{AreParts, HavePiecesToo};

use r4_base::Memory;
use r4_twig_asks::twig_bytes;
use r4_work::{KeyRange, TwigPiece, place_of};
use std::alloc::Global;

/// So many bytes of items and headers a twig has room for.
const ROOM: u64 = 4068;

/// Pieces in parts, so many at most, each with room in a twig: all that have keys of a range are in one of them. The
/// pieces before and behind the range stand with them, where there is room, or else in parts of their own. `None` where
/// there is no such way. The only error is want of memory (docs/volume.md, "Bodies in extents").
pub(crate) fn parted(
    alloc: Global,
    pieces: &[TwigPiece],
    keys: &KeyRange,
    most: usize,
) -> Result<Option<Vec<Vec<TwigPiece>>>, Memory>
    ensures parts { IfOk result (λ o. IfSome o (λ v.
        AreParts pieces.now (map (λ p. p.items) v.items))) }
    ensures few { IfOk result (λ o. IfSome o (λ v. length v.items ≤ most)) }
{
    let begin = place_in_twig(pieces, keys);
    let end = begin.max(place_of(pieces, &keys.to));
    if let Some(parts) = parted_at(alloc, pieces, 0, end, most)? {
        return Ok(Some(parts));
    }
    if let Some(parts) = parted_at(alloc, pieces, begin, pieces.len(), most)? {
        return Ok(Some(parts));
    }
    if let Some(parts) = parted_at(alloc, pieces, begin, end, most)? {
        return Ok(Some(parts));
    }
    parted_at(alloc, pieces, 0, pieces.len(), most)
}

// The place of the last piece that begins by the first key of a range.
fn place_in_twig(pieces: &[TwigPiece], keys: &KeyRange) -> usize
    ensures { result ≤ length pieces.now }
{
    let at = place_of(pieces, &keys.from);
    match pieces.get(at) {
        Some(piece) if piece.key.is_same(keys.from) => at,
        _ => at.saturating_sub(1),
    }
}

// The pieces in three parts at two places, without empty ones, where each has room and they are so many at most.
fn parted_at(
    alloc: Global,
    pieces: &[TwigPiece],
    begin: usize,
    end: usize,
    most: usize,
) -> Result<Option<Vec<Vec<TwigPiece>>>, Memory>
    requires begin { begin ≤ end }
    requires end { end ≤ length pieces.now }
    ensures parts { IfOk result (λ o. IfSome o (λ v.
        AreParts pieces.now (map (λ p. p.items) v.items))) }
    ensures few { IfOk result (λ o. IfSome o (λ v. length v.items ≤ most)) }
{
    let (front, rest) = pieces.split_at(begin);
    let (middle, behind) = rest.split_at(end - begin);
    let mut parts = Vec::new(alloc);
    if !add_part(alloc, front, &mut parts)? {
        return Ok(None);
    }
    if !add_part(alloc, middle, &mut parts)? {
        return Ok(None);
    }
    if !add_part(alloc, behind, &mut parts)? || parts.len() > most {
        return Ok(None);
    }
    Ok(Some(parts))
}

// Puts some pieces behind other parts, if there are some; and says whether a twig has room for them.
fn add_part(
    alloc: Global,
    pieces: &[TwigPiece],
    parts: &mut Vec<Vec<TwigPiece>>,
) -> Result<bool, Memory>
    ensures { IfOk result (λ ok. ok ≡ true → HavePiecesToo pieces.now
        (map (λ p. p.items) parts.old.items) (map (λ p. p.items) parts.new.items)) }
{
    if pieces.is_empty() {
        return Ok(true);
    }
    if twig_bytes(pieces) > ROOM {
        return Ok(false);
    }
    let mut part = Vec::with_capacity(alloc, pieces.len())?;
    part.extend_from_slice(pieces)?;
    parts.push(part)?;
    Ok(true)
}

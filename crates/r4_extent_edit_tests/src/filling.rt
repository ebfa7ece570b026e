//! Holes of a root that are filled: whether they may be is tried out, and then it is done.

ghost use Rattle.std.specs.Prelude.{ℕ, IsTrue, IfOk};
ghost use Rattle.r4_base.specs.Key.{rank};
ghost use Rattle.r4_extent_edit_tests.specs.Borders.{IsAtBorder};
ghost use Rattle.r4_graft.specs.Splices.{IsBorder};

use crate::blocks::{blocks_behind, count_new_blocks};
use crate::raising::raised;
use r4_base::{Key, Memory};
use r4_branch::TwigPiece;
use r4_cell::{Cell, Change, Fresh, least, top};
use r4_edit_testing::{ROOT, UNPLACED, is_twig_of_holes};
use r4_extent_edit::set_extent;
use r4_path::pieces_of_cell;
use std::alloc::Global;
use std::sync::Arc;

/// Puts an extent of blocks that have no place yet over a root of two holes, from a key on; `None`
/// where it is another root or extent, or an end of it lies within a block of a hole.
pub fn fill(
    alloc: Global,
    twig: &Arc<Cell>,
    key: &Key,
    body: &[u8],
) -> Result<Option<Change>, Memory> {
    let Some(count) = count_new_blocks(body) else {
        return Ok(None);
    };
    let Some(end) = blocks_behind(key, count) else {
        return Ok(None);
    };
    if key.is_below(least()) || top().is_below(end) {
        return Ok(None);
    }
    if !is_twig_of_holes(alloc, twig)? {
        return Ok(None);
    }
    let pieces = pieces_of_cell(alloc, twig)?;
    if !are_at_border(pieces.as_slice(), key) || !are_at_border(pieces.as_slice(), &end) {
        return Ok(None);
    }
    let path = [Arc::try_clone(twig)?];
    let mut few = Fresh {
        next: ROOT,
        end: UNPLACED,
    };
    let change = set_extent(alloc, &path, key, body, &mut few)?;
    Ok(Some(change))
}

/// The same in a tree of three levels: over the root there is one more, which has it alone.
pub fn fill_below(
    alloc: Global,
    twig: &Arc<Cell>,
    key: &Key,
    body: &[u8],
) -> Result<Option<Change>, Memory> {
    let Some(count) = count_new_blocks(body) else {
        return Ok(None);
    };
    let Some(end) = blocks_behind(key, count) else {
        return Ok(None);
    };
    if key.is_below(least()) || top().is_below(end) {
        return Ok(None);
    }
    if !is_twig_of_holes(alloc, twig)? {
        return Ok(None);
    }
    let pieces = pieces_of_cell(alloc, twig)?;
    if !are_at_border(pieces.as_slice(), key) || !are_at_border(pieces.as_slice(), &end) {
        return Ok(None);
    }
    let mut few = Fresh {
        next: ROOT,
        end: UNPLACED,
    };
    let path = raised(alloc, twig, &mut few)?;
    let change = set_extent(alloc, path.as_slice(), key, body, &mut few)?;
    Ok(Some(change))
}

// Whether the pieces are two, and the key lies at a border of the blocks of each.
fn are_at_border(pieces: &[TwigPiece], key: &Key) -> bool
    ensures { IsTrue result → IsBorder (rank key.now) pieces.now }
{
    let [first, second] = pieces else {
        return false;
    };
    at_border(first, key) && at_border(second, key)
}

// Whether the key does not lie behind the piece's, or is some whole blocks behind it.
fn at_border(piece: &TwigPiece, key: &Key) -> bool
    ensures { IsTrue result → IsAtBorder (rank key.now) piece.now }
{
    if !piece.key.is_below(*key) {
        return true;
    }
    if piece.key.el[0] != key.el[0]
        || piece.key.el[1] != key.el[1]
        || piece.key.el[2] != key.el[2]
    {
        return false;
    }
    piece.key.el[3] <= key.el[3] && (key.el[3] - piece.key.el[3]) % 4096 == 0
}

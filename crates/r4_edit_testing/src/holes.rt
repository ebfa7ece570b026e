//! A root that is a twig of two holes, for tests: it is parted within its extent.

ghost use Rattle.std.specs.Prelude.{◌≡◌, ℕ, [], IsTrue, IfOk};
ghost use Rattle.r4_base.specs.Key.{rank};
ghost use Rattle.r4_branch.specs.Pieces.{part_names};
ghost use Rattle.r4_edit_testing.specs.Trials.{AreTwoHoles, IsTwigOfHoles};

use crate::trials::{TWIG, numbers};
use r4_base::{Block, Memory, NodeId, put64};
use r4_branch::{TwigPart, TwigPiece};
use r4_cell::{Cell, Change, least, read_cell, top};
use r4_edit::split;
use r4_node40::NodeMut;
use r4_path::{append, pieces_of_cell};
use std::alloc::Global;
use std::sync::Arc;

/// The root with an extent of two holes, of one block and of two; `None` where it is refused.
pub fn twig_of_holes(alloc: Global) -> Result<Option<Arc<Cell>>, Memory> {
    let mut block = Block::zeroed(alloc)?;
    lay_holes(&mut block);
    match read_cell(alloc, NodeId(TWIG), 2, least(), top(), 64, block) {
        Ok(cell) => Ok(Some(cell)),
        Err(_) => Ok(None),
    }
}

/// Parts a root that has an extent of two holes; `None` where it is another cell.
pub fn halve_holes(alloc: Global, twig: &Arc<Cell>) -> Result<Option<Change>, Memory> {
    if !is_twig_of_holes(alloc, twig)? {
        return Ok(None);
    }
    let path = [Arc::try_clone(twig)?];
    let mut fresh = numbers();
    let change = split(alloc, &path, &mut fresh)?;
    Ok(Some(change))
}

// Makes the block the root of an extent of two holes.
fn lay_holes(block: &mut Block) {
    let mut extent = [0; 32];
    put64(&mut extent, 8, 1);
    put64(&mut extent, 24, 2);
    let mut node = NodeMut::format(block, 2, 1);
    append(&mut node, 0, least(), 5, &extent);
}

/// Whether the cell is the root of an extent of two holes.
pub fn is_twig_of_holes(alloc: Global, twig: &Cell) -> Result<bool, Memory>
    ensures { IfOk result (λ b. IsTrue b → IsTwigOfHoles twig.now) }
{
    if twig.id().0 != TWIG || twig.level() != 2 {
        return Ok(false);
    }
    if !twig.lo().is_same(least()) || !twig.hi().is_same(top()) {
        return Ok(false);
    }
    let _node = twig.node();
    let pieces = pieces_of_cell(alloc, twig)?;
    Ok(are_two_holes(pieces.as_slice()))
}

// Whether the pieces are two, and holes.
fn are_two_holes(pieces: &[TwigPiece]) -> bool
    ensures { IsTrue result → AreTwoHoles pieces.now }
{
    let [first, second] = pieces else {
        return false;
    };
    is_hole(first) && is_hole(second)
}

// Whether the piece names nothing.
fn is_hole(piece: &TwigPiece) -> bool
    ensures { IsTrue result → (next : ℕ) → part_names (rank piece.now.key) next piece.now.part ≡ [] }
{
    let TwigPart::Blocks(unit) = piece.part else {
        return false;
    };
    unit.start == 0
}

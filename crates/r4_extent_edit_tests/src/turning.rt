//! Leaves of a root of which a range becomes an extent: whether it may is tried out, and then it is
//! done.

ghost use Rattle.std.specs.Prelude.{◌<◌, ◌≤◌, map, IsTrue};
ghost use Rattle.std.specs.Arc.{arc_value};
ghost use Rattle.r4_base.specs.Key.{rank};
ghost use Rattle.r4_extent_edit_tests.specs.Turned.{AllStand, LieAround};

use crate::raising::raised;
use r4_base::{Key, Memory};
use r4_cell::{Cell, Change, Fresh};
use r4_edit_testing::{ROOT, UNPLACED, are_leaves, are_new_blocks, two_blocks_behind};
use r4_extent_edit::turn;
use r4_path::{pieces_of_cell, root_over};
use std::alloc::Global;
use std::sync::Arc;

/// Makes an extent of two blocks that have no place yet of the range of some leaves, all below one
/// root; `None` where they are none, or it is another extent, or it does not begin in the first of
/// them and end in the last.
pub fn turn_all(
    alloc: Global,
    leaves: &[Arc<Cell>],
    key: &Key,
    body: &[u8],
) -> Result<Option<Change>, Memory> {
    let Some(end) = two_blocks_behind(key) else {
        return Ok(None);
    };
    if !are_new_blocks(body) || !are_leaves(leaves) || !stand(leaves) {
        return Ok(None);
    }
    if !lie_around(leaves, key, &end) {
        return Ok(None);
    }
    let mut few = Fresh {
        next: ROOT,
        end: UNPLACED,
    };
    let twig = root_over(alloc, leaves, 1, &mut few)?;
    let _pieces = pieces_of_cell(alloc, &twig)?;
    let path = [twig];
    let change = turn(alloc, &path, leaves, key, body, &mut few)?;
    Ok(Some(change))
}

/// The same in a tree of three levels: over the root there is one more, which has it alone.
pub fn turn_below(
    alloc: Global,
    leaves: &[Arc<Cell>],
    key: &Key,
    body: &[u8],
) -> Result<Option<Change>, Memory> {
    let Some(end) = two_blocks_behind(key) else {
        return Ok(None);
    };
    if !are_new_blocks(body) || !are_leaves(leaves) || !stand(leaves) {
        return Ok(None);
    }
    if !lie_around(leaves, key, &end) {
        return Ok(None);
    }
    let mut few = Fresh {
        next: ROOT,
        end: UNPLACED,
    };
    let twig = root_over(alloc, leaves, 1, &mut few)?;
    let _pieces = pieces_of_cell(alloc, &twig)?;
    let path = raised(alloc, &twig, &mut few)?;
    let change = turn(alloc, path.as_slice(), leaves, key, body, &mut few)?;
    Ok(Some(change))
}

// Whether the cells are leaves; that they stand is known of each.
fn stand(leaves: &[Arc<Cell>]) -> bool
    ensures { IsTrue result → AllStand (map (λ c. arc_value c) leaves.now) }
{
    if leaves.is_empty() {
        return true;
    }
    if leaves[0].level() != 1 {
        return false;
    }
    let _node = leaves[0].node();
    stand(&leaves[1..])
}

// Whether the range from one key up to another begins in the first of the leaves, and ends in the
// last.
fn lie_around(leaves: &[Arc<Cell>], from: &Key, to: &Key) -> bool
    ensures { IsTrue result → LieAround (map (λ c. arc_value c) leaves.now) (rank from.now)
        (rank to.now) }
{
    if leaves.is_empty() {
        return false;
    }
    let first = &leaves[0];
    let last = &leaves[leaves.len() - 1];
    begins_in(first, from) && ends_in(last, to)
}

// Whether a range from the key on begins in the leaf.
fn begins_in(leaf: &Cell, key: &Key) -> bool
    ensures { IsTrue result → (rank leaf.now.lo ≤ rank key.now)
        × (rank key.now < rank leaf.now.hi) }
{
    !key.is_below(leaf.lo()) && key.is_below(leaf.hi())
}

// Whether a range up to the key ends in the leaf or with it.
fn ends_in(leaf: &Cell, key: &Key) -> bool
    ensures { IsTrue result → (rank leaf.now.lo < rank key.now)
        × (rank key.now ≤ rank leaf.now.hi) }
{
    leaf.lo().is_below(*key) && !leaf.hi().is_below(*key)
}

//! Whether what is no byte lies in leaves among the cells of a task, and these have room for it;
//! and whether data blocks among them are whole (docs/volume.md, "Bodies in extents").

ghost use Rattle.std.specs.Prelude.{◌≡◌, ◌+◌, ◌^◌, nat_le, nat_lt, IfOk, None, map, true};
ghost use Rattle.std.specs.Arc.{arc_value};
ghost use Rattle.std.specs.List.{list_all, list_any};
ghost use Rattle.r4_base.specs.Key.{offset_of, rank};
ghost use Rattle.r4_content.specs.Edited.{changed};
ghost use Rattle.r4_content.specs.Held.{edits_of, interval_of, pair_of};
ghost use Rattle.r4_twig_asks.specs.r4_leaf_edits.Suiting.{SuitLeaves};
ghost use Rattle.r4_extent_change.specs.r4_measure.r4_cell.Seen.{node_of};
ghost use Rattle.r4_extent_change.specs.r4_measure.r4_leaf.Units.{leaf_bytes};
ghost use Rattle.r4_extent_change.specs.r4_measure.r4_reach.Needs.{is_met, units_after};
ghost use Rattle.r4_extent_growth.specs.Lying.{cut_lies, has_all, has_one, has_room, have_room};
ghost use Rattle.r4_extent_growth.specs.Lying.{is_whole, lie_in_leaves, put_lies};

use r4_base::{BLOCK_BYTES, Key, Memory, Value};
use r4_content::{Edits, Interval};
use r4_extent_change::Cell;
use r4_twig_asks::{bytes_after, edits_of_leaf, is_of_body, touches_leaf};
use std::alloc::Global;
use std::sync::Arc;

/// How many bytes of items and their headers a leaf has room for (docs/volume.md, "Leaves").
const LEAF_ROOM: u64 = 4068;

// ---- data blocks

// Whether each data block among the cells is one of 4096 bytes and keys.
pub(crate) fn are_whole(cells: &[Arc<Cell>]) -> bool
    ensures { result ≡ list_all is_whole (map (λ c. arc_value c) cells.now) }
{
    for cell in cells {
        if !is_whole(cell) {
            return false;
        }
    }
    true
}

// Whether a cell is a data block of 4096 bytes and keys, or a node.
fn is_whole(cell: &Cell) -> bool
    ensures { result ≡ is_whole cell.now }
{
    if cell.level() != 0 {
        return true;
    }
    // what a block has is known of its bytes
    let _bytes = cell.block().bytes();
    let lo = cell.lo();
    has_block(&lo) && cell.hi().is_same(lo.behind(BLOCK_BYTES))
}

// Whether there is a key behind a block from a key on.
pub(crate) fn has_block(key: &Key) -> bool
    ensures { result ≡ nat_lt (offset_of key.now + 4096) (2 ^ 64) }
{
    key.el[3].checked_add(BLOCK_BYTES).is_some()
}

// ---- where edits lie

/// Whether what the edits cut and put lies in leaves among the cells, where it is no body's
/// (docs/volume.md, "Bodies in extents").
pub fn lie_in_leaves(cells: &[Arc<Cell>], edits: &Edits) -> bool
    ensures { result ≡ lie_in_leaves (map (λ c. arc_value c) cells.now) (edits_of edits.now) }
{
    cuts_lie(cells, edits.cuts.as_slice()) && puts_lie(cells, edits.puts.as_slice())
}

// Whether each of these intervals is of a body, or has no keys, or lies in one leaf.
fn cuts_lie(cells: &[Arc<Cell>], cuts: &[Interval]) -> bool
    ensures { result
        ≡ list_all (cut_lies (map (λ c. arc_value c) cells.now)) (map interval_of cuts.now) }
{
    for cut in cuts {
        if !cut_lies(cells, cut) {
            return false;
        }
    }
    true
}

// Whether an interval is of a body, or has no keys, or lies in one leaf.
fn cut_lies(cells: &[Arc<Cell>], cut: &Interval) -> bool
    ensures { result ≡ cut_lies (map (λ c. arc_value c) cells.now) (interval_of cut.now) }
{
    is_of_body(cut.from) || !cut.from.is_below(cut.to) || some_has_all(cells, cut)
}

// Whether one of the cells is a leaf that has all keys of an interval.
fn some_has_all(cells: &[Arc<Cell>], cut: &Interval) -> bool
    ensures { result ≡ list_any (has_all (interval_of cut.now)) (map (λ c. arc_value c) cells.now) }
{
    for cell in cells {
        if has_all(cell, cut) {
            return true;
        }
    }
    false
}

// Whether a cell is a leaf that has all keys of an interval.
fn has_all(cell: &Cell, cut: &Interval) -> bool
    ensures { result ≡ has_all (interval_of cut.now) cell.now }
{
    cell.level() == 1 && !cut.from.is_below(cell.lo()) && !cell.hi().is_below(cut.to)
}

// Whether each of these values is a byte, or has its key in a leaf.
fn puts_lie(cells: &[Arc<Cell>], puts: &[(Key, Value)]) -> bool
    ensures { result
        ≡ list_all (put_lies (map (λ c. arc_value c) cells.now)) (map pair_of puts.now) }
{
    for put in puts {
        if !put_lies(cells, put) {
            return false;
        }
    }
    true
}

// Whether a value is a byte, or has its key in a leaf.
fn put_lies(cells: &[Arc<Cell>], put: &(Key, Value)) -> bool
    ensures { result ≡ put_lies (map (λ c. arc_value c) cells.now) (pair_of put.now) }
{
    match put.1 {
        Value::Byte(_) => true,
        _ => some_has_one(cells, &put.0),
    }
}

// Whether one of the cells is a leaf that has a key.
fn some_has_one(cells: &[Arc<Cell>], key: &Key) -> bool
    ensures { result ≡ list_any (has_one (rank key.now)) (map (λ c. arc_value c) cells.now) }
{
    for cell in cells {
        if has_one(cell, key) {
            return true;
        }
    }
    false
}

// Whether a cell is a leaf that has a key.
fn has_one(cell: &Cell, key: &Key) -> bool
    ensures { result ≡ has_one (rank key.now) cell.now }
{
    cell.level() == 1 && !key.is_below(cell.lo()) && key.is_below(cell.hi())
}

// ---- the room of leaves

/// Whether each leaf among the cells has room for the edits that it gets. The only error is want of
/// memory (docs/volume.md, "Bodies in extents").
pub fn have_room(alloc: Global, edits: &Edits, cells: &[Arc<Cell>]) -> Result<bool, Memory>
    requires { SuitLeaves 16384 (edits_of edits.now) }
    ensures { IfOk result (λ ok. ok
        ≡ have_room (edits_of edits.now) (map (λ c. arc_value c) cells.now)) }
{
    for cell in cells {
        if !has_room(alloc, edits, cell)? {
            return Ok(false);
        }
    }
    Ok(true)
}

// Whether a cell is no leaf, or none that the edits change, or has room for them.
fn has_room(alloc: Global, edits: &Edits, cell: &Cell) -> Result<bool, Memory>
    requires { SuitLeaves 16384 (edits_of edits.now) }
    ensures { IfOk result (λ ok. ok ≡ has_room (edits_of edits.now) cell.now) }
{
    if cell.level() == 1 && touches_leaf(edits, &cell.lo(), &cell.hi()) {
        leaf_has_room(alloc, edits, cell)
    } else {
        Ok(true)
    }
}

// Whether a leaf that the edits change has room for them.
fn leaf_has_room(alloc: Global, edits: &Edits, leaf: &Cell) -> Result<bool, Memory>
    requires level { leaf.now.level ≡ 1 }
    requires met { is_met (changed (edits_of edits.now)) (rank leaf.now.lo) (rank leaf.now.hi)
        ≡ true }
    requires suit { SuitLeaves 16384 (edits_of edits.now) }
    ensures { IfOk result (λ ok. ok
        ≡ nat_le (leaf_bytes (units_after None (edits_of edits.now) (node_of leaf.now))) 4068) }
{
    let node = leaf.node();
    let gets = edits_of_leaf(alloc, edits, None, &leaf.lo(), &leaf.hi())?;
    let items = gets.items(alloc)?;
    let bytes = bytes_after(alloc, &node, leaf.lo(), gets.cuts(), items.as_slice())?;
    Ok(bytes <= LEAF_ROOM)
}

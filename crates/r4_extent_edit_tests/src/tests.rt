//! Extents over holes and in the place of leaves.

ghost use Rattle.std.specs.Prelude.{◌≡◌, ◌+◌, ◌≤◌, length};

use crate::filling::{fill, fill_below};
use crate::turning::{turn_all, turn_below};
use r4_base::{Block, Key, NodeId, put64};
use r4_cell::{Cell, Change, least, read_cell, top};
use r4_edit_testing::{
    LEAF, ROOT, Row, TAIL, TWIG, UNPLACED, ZEROS, byte, empty_leaf, first, rows, twig_of_holes,
    with,
};
use r4_node40::NodeMut;
use r4_path::append;
use std::alloc::Global;
use std::process::Abort;
use std::sync::Arc;
use std::test::Fail;

// What is looked at of a change: the cells that come, how many go, and whether the root stays.
#[derive(Drop)]
struct Looked {
    rows: Vec<Row>,
    gone: usize,
    keeps_root: bool,
}

fn look_at(alloc: Global, change: &Change) -> Result<Looked, Fail> {
    Ok(Looked {
        rows: rows(alloc, change)?,
        gone: change.old.as_slice().len(),
        keeps_root: change.root.is_none(),
    })
}

// Ends the test unless the cells that come are these.
fn same_rows<X: Abort>(rt: &X, looked: &Looked, want: &[Row]) {
    assert_eq!(rt; looked.rows.as_slice(), want);
}

// Spells a unit of one block at its place in an extent.
fn spell_unit(body: &mut [u8], at: usize, start: u64)
    requires { at + 16 ≤ length body.old }
    ensures { length body.new ≡ length body.old }
{
    put64(body, at, start);
    put64(body, at + 8, 1);
}

// Spells the extent of two blocks that have no place.
fn spell_new_blocks(body: &mut [u8])
    requires { length body.old ≡ 32 }
{
    spell_unit(body, 0, UNPLACED);
    spell_unit(body, 16, UNPLACED + 1);
}

// The root of two holes, the first of one block and the second of two.
fn holes(alloc: Global) -> Result<Arc<Cell>, Fail> {
    match twig_of_holes(alloc)? {
        Some(twig) => Ok(twig),
        None => Err(Fail::from("the twig is refused")),
    }
}

// From which byte on two blocks are set, and the cell that comes: over the first hole and half of
// the second, which is parted behind them; over the second hole; over its second half, which is
// parted before them, and behind it; behind both holes; and apart from them, in an item of their
// own.
static FILLS: [(u64, &[Row]); 5] = [
    (0, &[(TWIG, 1, 3982)]),
    (4096, &[(TWIG, 1, 3982)]),
    (8192, &[(TWIG, 1, 3966)]),
    (12288, &[(TWIG, 1, 3966)]),
    (40960, &[(TWIG, 2, 3928)]),
];

// What comes where two blocks are set over the holes from a byte on, in a tree of two levels or of three; `None` where they may
// not be set there.
fn filled(
    alloc: Global,
    twig: &Arc<Cell>,
    offset: u64,
    is_high: bool,
) -> Result<Option<Looked>, Fail> {
    let mut body = [0; 32];
    spell_new_blocks(&mut body);
    let key = least().with_offset(offset);
    let change = if is_high {
        fill_below(alloc, twig, &key, &body)?
    } else {
        fill(alloc, twig, &key, &body)?
    };
    match change {
        Some(change) => Ok(Some(look_at(alloc, &change)?)),
        None => Ok(None),
    }
}

// Looks at what comes over the holes.
fn look_at_fills<X: Abort>(rt: &X, alloc: Global, is_high: bool) -> Result<(), Fail> {
    let twig = holes(alloc)?;
    for (offset, want) in FILLS {
        let Some(looked) = filled(alloc, &twig, offset, is_high)? else {
            return Err(Fail::from("the blocks may not be set there"));
        };
        same_rows(rt, &looked, want);
        assert!(rt; looked.keeps_root);
    }
    Ok(())
}

#[test]
fn blocks_are_set_over_holes(rt: HostRuntime) -> Result<(), Fail> {
    look_at_fills(&rt, rt.alloc(), false)
}

// In a tree of three levels the same cells come: the root stays.
#[test]
fn blocks_are_set_over_holes_below_a_root(rt: HostRuntime) -> Result<(), Fail> {
    look_at_fills(&rt, rt.alloc(), true)
}

#[test]
fn no_block_is_set_within_another(rt: HostRuntime) -> Result<(), Fail> {
    let twig = holes(rt.alloc())?;
    let found = filled(rt.alloc(), &twig, 2048, false)?;
    assert!(rt; found.is_none());
    Ok(())
}

// A leaf with a tail of some bytes of the file, up to a key.
fn tail_leaf(
    alloc: Global,
    nth: u64,
    lo: Key,
    hi: Key,
    offset: u64,
    bytes: &[u8],
) -> Result<Arc<Cell>, Fail>
    requires few { nth ≤ 88 }
    requires some { 1 ≤ length bytes.now }
    requires fit { length bytes.now ≤ 4030 }
{
    let mut block = Block::zeroed(alloc)?;
    let mut node = NodeMut::format(&mut block, 1, 1);
    append(&mut node, 0, byte(offset), TAIL, bytes);
    let Ok(cell) = read_cell(alloc, NodeId(LEAF + nth), 1, lo, hi, 64, block) else {
        return Err(Fail::from("a leaf with a tail is refused"));
    };
    Ok(cell)
}

// Three leaves of one file, each with a tail.
fn three_leaves(alloc: Global) -> Result<[Arc<Cell>; 3], Fail> {
    Ok([
        tail_leaf(alloc, 0, least(), byte(5000), 2000, &ZEROS[..3000])?,
        tail_leaf(alloc, 1, byte(5000), byte(9000), 5000, &ZEROS[..4000])?,
        tail_leaf(alloc, 2, byte(9000), top(), 9000, &ZEROS[..4000])?,
    ])
}

// What comes where two blocks come in the place of some leaves' bytes, from a key on, in a tree of two levels or of three.
fn turned(alloc: Global, leaves: &[Arc<Cell>], key: Key, is_high: bool) -> Result<Looked, Fail> {
    let mut body = [0; 32];
    spell_new_blocks(&mut body);
    let change = if is_high {
        turn_below(alloc, leaves, &key, &body)?
    } else {
        turn_all(alloc, leaves, &key, &body)?
    };
    match change {
        Some(change) => look_at(alloc, &change),
        None => Err(Fail::from("the leaves may not be turned")),
    }
}

// Of the first leaf the bytes before the range stay, of the last one those behind it, in a new
// leaf.
#[test]
fn three_leaves_become_an_extent(rt: HostRuntime) -> Result<(), Fail> {
    let leaves = three_leaves(rt.alloc())?;
    let looked = turned(rt.alloc(), &leaves, byte(4096), false)?;
    let want = [(LEAF, 1, 1934), (ROOT + 1, 1, 3318), (ROOT, 3, 3906)];
    same_rows(&rt, &looked, want.as_slice());
    assert!(rt; looked.gone == 4);
    Ok(())
}

// In a tree of three levels the same cells come, but for a number: the root stays.
#[test]
fn three_leaves_below_a_root_and_a_twig_become_an_extent(rt: HostRuntime) -> Result<(), Fail> {
    let leaves = three_leaves(rt.alloc())?;
    let looked = turned(rt.alloc(), &leaves, byte(4096), true)?;
    let want = [(LEAF, 1, 1934), (ROOT + 2, 1, 3318), (ROOT, 3, 3906)];
    same_rows(&rt, &looked, want.as_slice());
    assert!(rt; looked.gone == 4);
    Ok(())
}

// What comes of one leaf.
fn turned_one(alloc: Global, leaf: Arc<Cell>, key: Key, is_high: bool) -> Result<Looked, Fail> {
    turned(alloc, &[leaf], key, is_high)
}

// The same of one leaf.
#[test]
fn a_leaf_below_a_root_and_a_twig_becomes_an_extent(rt: HostRuntime) -> Result<(), Fail> {
    let leaf = leaf_around(rt.alloc())?;
    let looked = turned_one(rt.alloc(), leaf, byte(4096), true)?;
    let want = [(LEAF, 1, 3934), (ROOT + 2, 1, 3930), (ROOT, 3, 3906)];
    same_rows(&rt, &looked, want.as_slice());
    assert!(rt; looked.gone == 2);
    Ok(())
}

// No byte is behind the range.
#[test]
fn the_end_of_a_leaf_becomes_an_extent(rt: HostRuntime) -> Result<(), Fail> {
    let leaf = tail_leaf(rt.alloc(), 0, least(), top(), 2000, &ZEROS[..3000])?;
    let looked = turned_one(rt.alloc(), leaf, byte(4096), false)?;
    same_rows(&rt, &looked, &[(LEAF, 1, 1934), (ROOT, 2, 3952)]);
    Ok(())
}

// The range begins where the leaf does, and nothing is behind it.
#[test]
fn a_leaf_goes_for_an_extent(rt: HostRuntime) -> Result<(), Fail> {
    let leaf = empty_leaf(rt.alloc(), LEAF, least(), top())?;
    let looked = turned_one(rt.alloc(), leaf, least(), false)?;
    same_rows(&rt, &looked, &[(ROOT, 1, 3998)]);
    Ok(())
}

// The leaf with a tail behind all that it has.
fn put_tail(alloc: Global, leaf: Arc<Cell>, offset: u64, bytes: &[u8]) -> Result<Arc<Cell>, Fail> {
    let change = with(alloc, &[leaf], byte(offset), TAIL, bytes)?;
    first(&change)
}

// The leaf of all keys with two tails: one goes on behind the byte where the range begins, and the
// other begins behind the range.
fn leaf_around(alloc: Global) -> Result<Arc<Cell>, Fail> {
    let bare = empty_leaf(alloc, LEAF, least(), top())?;
    let one = put_tail(alloc, bare, 4000, &ZEROS[..200])?;
    put_tail(alloc, one, 12_300, &ZEROS[..100])
}

// Of one leaf both ends stay, each in a leaf of its own.
#[test]
fn the_middle_of_a_leaf_becomes_an_extent(rt: HostRuntime) -> Result<(), Fail> {
    let leaf = leaf_around(rt.alloc())?;
    let looked = turned_one(rt.alloc(), leaf, byte(4096), false)?;
    let want = [(LEAF, 1, 3934), (ROOT + 1, 1, 3930), (ROOT, 3, 3906)];
    same_rows(&rt, &looked, want.as_slice());
    assert!(rt; looked.gone == 2);
    Ok(())
}

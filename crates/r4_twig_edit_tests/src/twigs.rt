//! Edits of a root that has an extent, and of a full one: which cells come, and how many items and free bytes they have.

ghost use Rattle.std.specs.Prelude.{◌≡◌, ◌+◌, ◌≤◌, length};

use r4_base::{Block, Key, NodeId, Oid, put64};
use r4_cell::{Cell, Change, least, read_cell, top};
use r4_edit_testing::{
    DIRECTORY, LEAF, ROOT, Row, STAT, TAIL, TWIG, UNPLACED, ZEROS, byte, empty_leaf, first,
    halve_holes, put_apart, put_behind, put_blocks, repack, root_leaf, rows, run_twig, take_first,
    take_one, twig_of_holes, with,
};
use r4_meta::write_stat;
use std::alloc::Global;
use std::process::Abort;
use std::sync::Arc;
use std::test::Fail;

// What is looked at of a change: the cells that come, the bounds of the first one, and the height of a new root.
#[derive(Drop)]
struct Looked {
    rows: Vec<Row>,
    lo: Key,
    hi: Key,
    height: Option<u8>,
}

fn look_at(alloc: Global, change: &Change) -> Result<Looked, Fail> {
    let Some(cell) = change.new.as_slice().first() else {
        return Err(Fail::from("no cell comes"));
    };
    let height = match change.root {
        Some(root) => Some(root.height),
        None => None,
    };
    Ok(Looked {
        lo: cell.lo(),
        hi: cell.hi(),
        height,
        rows: rows(alloc, change)?,
    })
}

// Ends the test unless these cells come, and the height of a new root is this.
fn same<X: Abort>(rt: &X, looked: &Looked, want: &[Row], height: Option<u8>) {
    assert_eq!(rt; looked.rows.as_slice(), want);
    assert_eq!(rt; looked.height, height);
}

// A leaf with those that fill up its root: 88 in all.
fn beside(alloc: Global, first: Arc<Cell>) -> Result<Vec<Arc<Cell>>, Fail> {
    let lo = first.hi();
    let mut leaves = Vec::new(alloc);
    leaves.push(first)?;
    fill_up(alloc, &mut leaves, lo)?;
    Ok(leaves)
}

// The other 87 leaves, from a key on.
fn fill_up(alloc: Global, leaves: &mut Vec<Arc<Cell>>, lo: Key) -> Result<(), Fail> {
    let mut lo = lo;
    for i in 1..88u64 {
        let hi = if i == 87 {
            top()
        } else {
            Key::body(41, 0, Oid(43 + i), 0)
        };
        leaves.push(empty_leaf(alloc, LEAF + i, lo, hi)?)?;
        lo = hi;
    }
    Ok(())
}

// How many cells come where the second tail fills up the leaf of a full root, and the height of the new root.
fn second_tail(alloc: Global) -> Result<(usize, Option<u8>), Fail> {
    let leaves = beside(alloc, filled_leaf(alloc)?)?;
    let change = with(alloc, leaves.as_slice(), byte(4000), TAIL, &ZEROS[..4000])?;
    let height = match change.root {
        Some(root) => Some(root.height),
        None => None,
    };
    Ok((change.new.as_slice().len(), height))
}

// The first leaf of a full root with a tail.
fn filled_leaf(alloc: Global) -> Result<Arc<Cell>, Fail> {
    let leaves = full_root(alloc)?;
    let change = with(alloc, leaves.as_slice(), byte(0), TAIL, &ZEROS[..4000])?;
    first(&change)
}

// The leaves of a full root.
fn full_root(alloc: Global) -> Result<Vec<Arc<Cell>>, Fail> {
    let hi = Key::body(41, 0, Oid(43), 0);
    beside(alloc, empty_leaf(alloc, LEAF, least(), hi)?)
}

#[test]
fn a_full_root_is_parted(rt: HostRuntime) -> Result<(), Fail> {
    let found = second_tail(rt.alloc())?;
    assert_eq!(rt; found, (5, Some(3)));
    Ok(())
}

// What comes where a twig of two holes is parted.
fn parted_holes(alloc: Global) -> Result<Looked, Fail> {
    let Some(twig) = twig_of_holes(alloc)? else {
        return Err(Fail::from("a twig of holes is refused"));
    };
    match halve_holes(alloc, &twig)? {
        Some(change) => look_at(alloc, &change),
        None => Err(Fail::from("it is no twig of two holes")),
    }
}

// A twig with one extent is parted before the middle one of its units.
#[test]
fn an_extent_is_parted(rt: HostRuntime) -> Result<(), Fail> {
    let parted = parted_holes(rt.alloc())?;
    let want = [(TWIG, 1, 4014), (ROOT, 1, 4014), (ROOT + 1, 2, 3976)];
    same(&rt, &parted, want.as_slice(), Some(3));
    Ok(())
}

// The root over 88 leaves is full.
#[test]
fn a_twig_is_packed_anew(rt: HostRuntime) -> Result<(), Fail> {
    let alloc = rt.alloc();
    let leaves = full_root(alloc)?;
    let packed = match repack(alloc, leaves.as_slice())? {
        Some(change) => rows(alloc, &change)?,
        None => return Err(Fail::from("they are no leaves")),
    };
    assert_eq!(rt; packed.as_slice(), [(ROOT, 88, 20)].as_slice());
    Ok(())
}

// Spells a unit of one block at its place in an extent.
fn spell_unit(body: &mut [u8], at: usize, start: u64)
    requires { at + 16 ≤ length body.old }
    ensures { length body.new ≡ length body.old }
{
    put64(body, at, start);
    put64(body, at + 8, 1);
}

// Spells the extent of two blocks that have no place.
fn spell_new_blocks(body: &mut [u8])
    requires { length body.old ≡ 32 }
{
    spell_unit(body, 0, UNPLACED);
    spell_unit(body, 16, UNPLACED + 1);
}

// What comes where an extent of two blocks without a place is put into the range of a leaf, which has all keys.
fn over(alloc: Global, leaf: &Arc<Cell>, key: Key) -> Result<Looked, Fail> {
    let mut body = [0; 32];
    spell_new_blocks(&mut body);
    match put_blocks(alloc, &[Arc::try_clone(leaf)?], &key, &body) {
        Ok(Some(change)) => look_at(alloc, &change),
        Ok(None) => Err(Fail::from("the blocks may not be put there")),
        Err(_) => Err(Fail::from("there is no memory")),
    }
}

// A leaf with a tail of a hundred bytes from 8192 on.
fn with_tail(alloc: Global, leaf: Arc<Cell>) -> Result<Arc<Cell>, Fail> {
    let change = with(alloc, &[leaf], byte(8192), TAIL, &ZEROS[..100])?;
    first(&change)
}

// The stat data stays in the leaf, which ends where the extent begins.
#[test]
fn an_extent_is_put_behind_a_leaf(rt: HostRuntime) -> Result<(), Fail> {
    let leaf = root_leaf(rt.alloc())?;
    let change = over(rt.alloc(), &leaf, byte(0))?;
    same(&rt, &change, &[(LEAF, 1, 3986), (ROOT, 2, 3952)], None);
    assert!(rt; change.hi.is_same(byte(0)));
    Ok(())
}

// A tail right of the extent comes into a leaf of its own.
#[test]
fn an_extent_is_put_between_two_leaves(rt: HostRuntime) -> Result<(), Fail> {
    let leaf = with_tail(rt.alloc(), root_leaf(rt.alloc())?)?;
    let change = over(rt.alloc(), &leaf, byte(0))?;
    let want = [(LEAF, 1, 3986), (ROOT + 1, 1, 3930), (ROOT, 3, 3906)];
    same(&rt, &change, want.as_slice(), None);
    assert!(rt; change.hi.is_same(byte(0)));
    Ok(())
}

// Where the extent begins at the leaf's first key the leaf goes, and what is right of the extent has its name.
#[test]
fn an_extent_is_put_before_a_leaf(rt: HostRuntime) -> Result<(), Fail> {
    let bare = empty_leaf(rt.alloc(), LEAF, least(), top())?;
    let alone = over(rt.alloc(), &bare, least())?;
    let leaf = with_tail(rt.alloc(), bare)?;
    let before = over(rt.alloc(), &leaf, least())?;
    assert_eq!(rt; alone.rows.as_slice(), [(ROOT, 1, 3998)].as_slice());
    let want = [(LEAF, 1, 3930), (ROOT, 2, 3952)];
    assert_eq!(rt; before.rows.as_slice(), want.as_slice());
    assert!(rt; before.lo.is_same(byte(8192)));
    Ok(())
}

// The root of an extent of four blocks, with a leaf before it, or another object's extent.
fn twig_of_run(alloc: Global, leaf: bool) -> Result<Arc<Cell>, Fail> {
    match run_twig(alloc, leaf)? {
        Some(twig) => Ok(twig),
        None => Err(Fail::from("the twig is refused")),
    }
}

// One of the four blocks.
fn block_of_run(alloc: Global, nth: u8) -> Result<Arc<Cell>, Fail> {
    let id = NodeId(TWIG + 2 + u64::from(nth));
    let lo = byte(4096 * u64::from(nth));
    let hi = byte(4096 * u64::from(nth) + 4096);
    match read_cell(alloc, id, 0, lo, hi, 64, Block::zeroed(alloc)?) {
        Ok(cell) => Ok(cell),
        Err(_) => Err(Fail::from("a block is refused")),
    }
}

// What comes where the first of the four blocks is cut out, behind a leaf.
fn without_first(
    alloc: Global,
    twig: &Arc<Cell>,
    block: &Arc<Cell>,
) -> Result<Option<Change>, Fail> {
    let leaf = empty_leaf(alloc, TWIG + 1, least(), byte(0))?;
    Ok(take_first(alloc, twig, &leaf, block)?)
}

// What comes where one of the four blocks is cut out.
fn without_block(alloc: Global, has_leaf: bool, nth: u8) -> Result<Looked, Fail> {
    let twig = twig_of_run(alloc, has_leaf)?;
    let block = block_of_run(alloc, nth)?;
    let cut = if has_leaf && nth == 0 {
        without_first(alloc, &twig, &block)?
    } else {
        take_one(alloc, &twig, has_leaf, &block, u64::from(nth))?
    };
    match cut {
        Some(change) => look_at(alloc, &change),
        None => Err(Fail::from("the cells are others")),
    }
}

// Whether a leaf stands before the extent, or another one; which block is cut out; and the cells that come. The first one's
// range then is the leaf's, or a new one's; that of the others is the extent's.
static CUTS: [(bool, u8, &[Row]); 4] = [
    (true, 0, &[(TWIG + 1, 0, 4068), (TWIG, 2, 3968)]),
    (false, 0, &[(ROOT, 0, 4068), (TWIG, 3, 3914)]),
    (true, 1, &[(TWIG, 3, 3914)]),
    (true, 3, &[(TWIG, 2, 3968)]),
];

#[test]
fn blocks_are_cut_out_of_an_extent(rt: HostRuntime) -> Result<(), Fail> {
    for (has_leaf, nth, want) in CUTS {
        let change = without_block(rt.alloc(), has_leaf, nth)?;
        same(&rt, &change, want, None);
        assert!(rt; nth > 0 || change.hi.is_same(byte(4096)));
    }
    Ok(())
}

// From which byte on an extent of two blocks is put behind the four, and the cell that comes: its units stand in the item of
// these only where they continue them.
static SPREADS: [(u64, &[Row]); 2] = [(16384, &[(TWIG, 2, 3936)]), (32768, &[(TWIG, 3, 3898)])];

// What comes where the extent of two blocks is put behind the four, from a byte on.
fn behind(alloc: Global, twig: &Arc<Cell>, offset: u64) -> Result<Looked, Fail> {
    let mut body = [0; 32];
    spell_new_blocks(&mut body);
    match put_behind(alloc, twig, offset, &body)? {
        Some(change) => look_at(alloc, &change),
        None => Err(Fail::from("the blocks may not be put there")),
    }
}

#[test]
fn an_extent_is_put_behind_another(rt: HostRuntime) -> Result<(), Fail> {
    let twig = twig_of_run(rt.alloc(), true)?;
    for (offset, want) in SPREADS {
        let change = behind(rt.alloc(), &twig, offset)?;
        same(&rt, &change, want, None);
    }
    Ok(())
}

// What comes where stat data is put behind the four blocks, at this key.
fn apart(alloc: Global, key: Key) -> Result<Looked, Fail> {
    let mut stat = [0; 44];
    write_stat(&mut stat, &DIRECTORY);
    let twig = twig_of_run(alloc, true)?;
    match put_apart(alloc, &twig, &key, STAT, &stat)? {
        Some(change) => look_at(alloc, &change),
        None => Err(Fail::from("it may not be put there")),
    }
}

// The stat data of another object comes into a leaf of its own, up to the end of the twig's range.
#[test]
fn an_item_is_put_behind_an_extent(rt: HostRuntime) -> Result<(), Fail> {
    let key = Key::stat(42, 0, Oid(43));
    let change = apart(rt.alloc(), key)?;
    let want = [(ROOT, 1, 3986), (TWIG, 3, 3922)];
    assert_eq!(rt; change.rows.as_slice(), want.as_slice());
    assert!(rt; change.lo.is_same(key) && change.hi.is_same(top()));
    Ok(())
}

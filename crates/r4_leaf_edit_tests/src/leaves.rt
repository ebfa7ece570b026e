//! Edits of a leaf below a root: which cells come, and how many items and free bytes they have.

use r4_base::{Key, Oid};
use r4_cell::{Cell, Change, least, top};
use r4_edit_testing::{
    ENTRIES, LEAF, LETTERS, ROOT, Row, TAIL, ZEROS, byte, empty_leaf, entries, first, halve,
    name_key, raise, root_leaf, rows, take_out, with, with_between,
};
use std::alloc::Global;
use std::process::Abort;
use std::sync::Arc;
use std::test::Fail;

// Ends the test unless the cells that come are these.
fn same_rows<X: Abort>(rt: &X, got: &[Row], want: &[Row]) {
    assert_eq!(rt; got, want);
}

// The cells that come where some units of a leaf go.
fn rows_without(alloc: Global, leaf: &Arc<Cell>, from: Key, to: Key) -> Result<Vec<Row>, Fail> {
    match take_out(alloc, &[Arc::try_clone(leaf)?], &from, &to) {
        Ok(Some(change)) => rows(alloc, &change),
        Ok(None) => Err(Fail::from("the keys are not the leaf's")),
        Err(_) => Err(Fail::from("there is no memory")),
    }
}

// The cells that come where an item is put into a leaf behind all that it has.
fn rows_with(
    alloc: Global,
    leaf: &Arc<Cell>,
    key: Key,
    plugin: u16,
    body: &[u8],
) -> Result<Vec<Row>, Fail> {
    let change = with(alloc, &[Arc::try_clone(leaf)?], key, plugin, body)?;
    rows(alloc, &change)
}

// The cells that come where it is put between others, up to a key.
fn rows_between(
    alloc: Global,
    leaf: &Arc<Cell>,
    key: Key,
    end: Key,
    plugin: u16,
    body: &[u8],
) -> Result<Vec<Row>, Fail> {
    let change = with_between(alloc, &[Arc::try_clone(leaf)?], key, end, plugin, body)?;
    rows(alloc, &change)
}

// The leaf with an item behind all that it has.
fn put_in(
    alloc: Global,
    leaf: &Arc<Cell>,
    key: Key,
    plugin: u16,
    body: &[u8],
) -> Result<Arc<Cell>, Fail> {
    let change = with(alloc, &[Arc::try_clone(leaf)?], key, plugin, body)?;
    first(&change)
}

// The leaf with names of a directory, which rise.
fn put_names(alloc: Global, leaf: &Arc<Cell>, dir: Oid, letters: &[u8]) -> Result<Arc<Cell>, Fail> {
    let names = entries(alloc, dir, letters, 1)?;
    let from = name_key(dir, LETTERS[0], 1)?;
    put_in(alloc, leaf, from, ENTRIES, names.as_slice())
}

// How many bytes of a tail come into the leaf of a fresh volume, and the cells that come.
static TAILS: [(usize, &[Row]); 2] = [
    (3948, &[(LEAF, 2, 0)]),
    (3949, &[(LEAF, 2, 0), (ROOT + 1, 1, 4029), (ROOT, 2, 3976)]),
];

// The cells that come where a leaf gets so many bytes of a tail, and whether the root stays.
fn filled(alloc: Global, leaf: &Arc<Cell>, bytes: usize) -> Result<(Vec<Row>, bool), Fail> {
    if bytes > 4030 {
        return Err(Fail::from("no item has so many bytes"));
    }
    let leaves = [Arc::try_clone(leaf)?];
    let change = with(alloc, &leaves, byte(0), TAIL, &ZEROS[..bytes])?;
    Ok((rows(alloc, &change)?, change.root.is_none()))
}

#[test]
fn a_leaf_is_filled_before_another_comes(rt: HostRuntime) -> Result<(), Fail> {
    let leaf = root_leaf(rt.alloc())?;
    for (bytes, want) in TAILS {
        let (rows, keeps_root) = filled(rt.alloc(), &leaf, bytes)?;
        same_rows(&rt, rows.as_slice(), want);
        assert!(rt; keeps_root);
    }
    Ok(())
}

// A leaf with two tails of one file.
fn two_tails(alloc: Global) -> Result<Arc<Cell>, Fail> {
    let bare = empty_leaf(alloc, LEAF, least(), top())?;
    let low = put_in(alloc, &bare, byte(0), TAIL, &ZEROS[..2000])?;
    put_in(alloc, &low, byte(8000), TAIL, &ZEROS[..1992])
}

// Bytes between two others of their file, so many that three leaves come.
#[test]
fn a_leaf_becomes_three(rt: HostRuntime) -> Result<(), Fail> {
    let alloc = rt.alloc();
    let both = two_tails(alloc)?;
    let rows = rows_between(alloc, &both, byte(3000), byte(7500), TAIL, &ZEROS)?;
    let want = [
        (LEAF, 2, 0),
        (ROOT + 1, 2, 0),
        (ROOT + 2, 1, 3992),
        (ROOT, 3, 3930),
    ];
    same_rows(&rt, rows.as_slice(), want.as_slice());
    Ok(())
}

// The leaf with a tail of a hundred bytes.
fn with_a_tail(alloc: Global, leaf: &Arc<Cell>) -> Result<Arc<Cell>, Fail> {
    put_in(alloc, leaf, byte(0), TAIL, &ZEROS[..100])
}

// Looks at the cell that comes where some units of a leaf go.
fn is_cut<X: Abort>(
    rt: &X,
    alloc: Global,
    leaf: &Arc<Cell>,
    range: (Key, Key),
    want: Row,
) -> Result<(), Fail> {
    let rows = rows_without(alloc, leaf, range.0, range.1)?;
    same_rows(rt, rows.as_slice(), &[want]);
    Ok(())
}

// Looks at the cell that comes where bytes go on the tail of a leaf.
fn is_joined<X: Abort>(rt: &X, alloc: Global, leaf: &Arc<Cell>, want: Row) -> Result<(), Fail> {
    let rows = rows_with(alloc, leaf, byte(100), TAIL, &ZEROS[..50])?;
    same_rows(rt, rows.as_slice(), &[want]);
    Ok(())
}

#[test]
fn tails_are_joined_and_cut(rt: HostRuntime) -> Result<(), Fail> {
    let alloc = rt.alloc();
    let one = with_a_tail(alloc, &root_leaf(alloc)?)?;
    is_joined(&rt, alloc, &one, (LEAF, 2, 3798))?;
    is_cut(&rt, alloc, &one, (byte(40), byte(60)), (LEAF, 3, 3830))?;
    is_cut(&rt, alloc, &one, (least(), top()), (LEAF, 0, 4068))
}

// A leaf of the short names of two directories.
fn two_directories(alloc: Global) -> Result<Arc<Cell>, Fail> {
    let bare = empty_leaf(alloc, LEAF, least(), top())?;
    let some = put_names(alloc, &bare, Oid(42), &LETTERS[..39])?;
    put_names(alloc, &some, Oid(44), &LETTERS)
}

// Long names between the short ones of two other directories: the first of them come behind those of the one, and the others
// before some of those of the other.
#[test]
fn a_leaf_of_entries_becomes_three(rt: HostRuntime) -> Result<(), Fail> {
    let alloc = rt.alloc();
    let key = name_key(Oid(43), LETTERS[0], 255)?;
    let end = name_key(Oid(44), LETTERS[0], 1)?;
    let full = two_directories(alloc)?;
    let long = entries(alloc, Oid(43), &LETTERS[..13], 255)?;
    let rows = rows_between(alloc, &full, key, end, ENTRIES, long.as_slice())?;
    let want = [
        (LEAF, 2, 202),
        (ROOT + 1, 2, 46),
        (ROOT + 2, 1, 3828),
        (ROOT, 3, 3930),
    ];
    same_rows(&rt, rows.as_slice(), want.as_slice());
    Ok(())
}

// The cells that come where a leaf is parted, and the first key of the second one.
fn parts(alloc: Global, leaf: Arc<Cell>) -> Result<(Vec<Row>, Key), Fail> {
    match halve(alloc, &[leaf])? {
        Some(change) => told(alloc, &change),
        None => Err(Fail::from("the leaf has no two units")),
    }
}

// The cells that come, and the end of the first one.
fn told(alloc: Global, change: &Change) -> Result<(Vec<Row>, Key), Fail> {
    let end = first(change)?.hi();
    Ok((rows(alloc, change)?, end))
}

// Looks at the cells that come where a leaf is parted, the first of which ends at a key.
fn is_parted<X: Abort>(
    rt: &X,
    alloc: Global,
    leaf: Arc<Cell>,
    want: &[Row],
    end: Key,
) -> Result<(), Fail> {
    let (rows, key) = parts(alloc, leaf)?;
    same_rows(rt, rows.as_slice(), want);
    assert!(rt; key.is_same(end));
    Ok(())
}

// A leaf with one item is parted before the middle one of its bytes or entries.
#[test]
fn an_item_of_a_leaf_is_parted(rt: HostRuntime) -> Result<(), Fail> {
    let alloc = rt.alloc();
    let bare = empty_leaf(alloc, LEAF, least(), top())?;
    let tail = put_in(alloc, &bare, byte(7), TAIL, &ZEROS[..101])?;
    let want = [(LEAF, 1, 3980), (ROOT + 1, 1, 3979), (ROOT, 2, 3976)];
    is_parted(&rt, alloc, tail, want.as_slice(), byte(57))?;
    let dir = put_names(alloc, &bare, Oid(42), &LETTERS[..39])?;
    let middle = name_key(Oid(42), LETTERS[19], 1)?;
    let want = [(LEAF, 1, 3078), (ROOT + 1, 1, 3028), (ROOT, 2, 3976)];
    is_parted(&rt, alloc, dir, want.as_slice(), middle)
}

// The cells that come where a root goes below another, and whether the tree has three levels then.
fn raised(alloc: Global, root: Arc<Cell>) -> Result<(Vec<Row>, bool), Fail> {
    match raise(alloc, &[root])? {
        Some(change) => {
            let is_higher = matches!(change.root, Some(root) if root.height == 3);
            Ok((rows(alloc, &change)?, is_higher))
        }
        None => Err(Fail::from("it is no leaf of all keys")),
    }
}

#[test]
fn a_leaf_is_parted_and_a_root_goes_below_another(rt: HostRuntime) -> Result<(), Fail> {
    let bare = root_leaf(rt.alloc())?;
    let leaf = with_a_tail(rt.alloc(), &bare)?;
    becomes_two(&rt, rt.alloc(), leaf)?;
    is_raised(&rt, rt.alloc(), bare)
}

// Looks at the cells that come where the leaf with a tail is parted.
fn becomes_two<X: Abort>(rt: &X, alloc: Global, leaf: Arc<Cell>) -> Result<(), Fail> {
    let (rows, _) = parts(alloc, leaf)?;
    let want = [(LEAF, 1, 3986), (ROOT + 1, 1, 3930), (ROOT, 2, 3976)];
    same_rows(rt, rows.as_slice(), want.as_slice());
    Ok(())
}

// Looks at the cells that come where the root goes below another.
fn is_raised<X: Abort>(rt: &X, alloc: Global, root: Arc<Cell>) -> Result<(), Fail> {
    let (rows, is_higher) = raised(alloc, root)?;
    let want = [(ROOT, 1, 4022), (ROOT + 1, 1, 4022)];
    same_rows(rt, rows.as_slice(), want.as_slice());
    assert!(rt; is_higher);
    Ok(())
}

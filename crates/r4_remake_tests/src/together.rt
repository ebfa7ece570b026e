//! All edits of a leaf at once: what goes, what comes, and which cells there are then.

use r4_base::{Attr, Key, Oid, get16};
use r4_cell::{Cell, Change, least, top};
use r4_edit_testing::{
    DIRECTORY, ENTRIES, LEAF, LETTERS, ROOT, Row, STAT, TAIL, ZEROS, byte, empty_leaf, entries,
    first, name_key, remake, root_leaf, rows, with,
};
use r4_leaf::{Given, KeyRange};
use r4_meta::write_stat;
use r4_patch::follow;
use std::alloc::Global;
use std::process::Abort;
use std::sync::Arc;
use std::test::Fail;

static MANY_BYTES: [u8; 16_384] = [1; 16_384];

// As many bytes as fill the leaf of a fresh volume.
static FILLING: [u8; 3948] = [1; 3948];

// What comes where some units of a leaf of all keys go, and then these items come, each into its range.
fn edited(
    alloc: Global,
    leaf: &Arc<Cell>,
    cuts: &[KeyRange],
    items: &[Given<'_>],
    ranges: &[KeyRange],
) -> Result<Change, Fail> {
    match remake(alloc, &[Arc::try_clone(leaf)?], cuts, items, ranges)? {
        Some(change) => Ok(change),
        None => Err(Fail::from("it may not be put there")),
    }
}

// The cells that come then.
fn edited_rows(
    alloc: Global,
    leaf: &Arc<Cell>,
    cuts: &[KeyRange],
    items: &[Given<'_>],
    ranges: &[KeyRange],
) -> Result<Vec<Row>, Fail> {
    let change = edited(alloc, leaf, cuts, items, ranges)?;
    rows(alloc, &change)
}

// Ends the test unless the cells that come are these.
fn same_rows<X: Abort>(rt: &X, got: &[Row], want: &[Row]) {
    assert_eq!(rt; got, want);
}

// The keys of so many bytes of a file, from one on.
fn bytes(from: u64, to: u64) -> KeyRange {
    KeyRange {
        from: byte(from),
        to: byte(to),
    }
}

// The range of one key, in which an item of one unit stands alone.
fn only(key: Key) -> Result<KeyRange, Fail> {
    if key.el[3] > 16_384 {
        return Err(Fail::from("this is another key"));
    }
    Ok(KeyRange {
        from: key,
        to: key.behind(1),
    })
}

// The leaf of a fresh volume with so many bytes of a file.
fn leaf_with_bytes(alloc: Global, count: usize) -> Result<Arc<Cell>, Fail> {
    if count > 4030 {
        return Err(Fail::from("no item has so many bytes"));
    }
    let leaf = [root_leaf(alloc)?];
    first(&with(alloc, &leaf, byte(0), TAIL, &ZEROS[..count])?)
}

// The leaf is full: where a byte goes the tail becomes two, and a header more has no room.
#[test]
fn a_byte_is_cut_out_of_a_full_leaf(rt: HostRuntime) -> Result<(), Fail> {
    let alloc = rt.alloc();
    let leaf = leaf_with_bytes(alloc, 3948)?;
    let rows = edited_rows(alloc, &leaf, &[bytes(100, 101)], &[], &[])?;
    let want = [(LEAF, 3, 0), (ROOT + 1, 1, 3993), (ROOT, 2, 3976)];
    same_rows(&rt, rows.as_slice(), want.as_slice());
    Ok(())
}

// How many bytes come in the place of the ten from 10 on, of a hundred, and the leaf then.
static OVERWRITTEN: [(usize, Row); 2] = [(10, (LEAF, 2, 3848)), (4, (LEAF, 3, 3816))];

// The cells that come where so many bytes come in the place of the ten.
fn overwritten(alloc: Global, leaf: &Arc<Cell>, count: usize) -> Result<Vec<Row>, Fail> {
    if count > 10 {
        return Err(Fail::from("these are too many bytes"));
    }
    let tail = Given::Item {
        key: byte(10),
        plugin: TAIL,
        body: &MANY_BYTES[..count],
    };
    edited_rows(alloc, leaf, &[bytes(10, 20)], &[tail], &[bytes(10, 20)])
}

#[test]
fn bytes_are_overwritten_in_one_edit(rt: HostRuntime) -> Result<(), Fail> {
    let leaf = leaf_with_bytes(rt.alloc(), 100)?;
    for (count, want) in OVERWRITTEN {
        let rows = overwritten(rt.alloc(), &leaf, count)?;
        same_rows(&rt, rows.as_slice(), &[want]);
    }
    Ok(())
}

// The bytes of a second file come behind those of the first, which fill the leaf.
#[test]
fn a_whole_tail_comes_into_a_full_leaf(rt: HostRuntime) -> Result<(), Fail> {
    let alloc = rt.alloc();
    let leaf = leaf_with_bytes(alloc, 3948)?;
    let key = Key::body(41, 0, Oid(43), 0);
    let tail = Given::Item {
        key,
        plugin: TAIL,
        body: &MANY_BYTES,
    };
    let range = KeyRange {
        from: key,
        to: Key::body(41, 0, Oid(43), 16_384),
    };
    let rows = edited_rows(alloc, &leaf, &[], &[tail], &[range])?;
    let want = [
        (LEAF, 2, 0),
        (ROOT + 1, 1, 0),
        (ROOT + 2, 1, 0),
        (ROOT + 3, 1, 0),
        (ROOT + 4, 1, 0),
        (ROOT + 5, 1, 3766),
        (ROOT, 6, 3792),
    ];
    same_rows(&rt, rows.as_slice(), want.as_slice());
    Ok(())
}

// The cells that come, and two bytes of the first body of one of them, at its place in the row.
fn told(alloc: Global, change: &Change, cell: usize, at: usize) -> Result<(Vec<Row>, u16), Fail> {
    let Some(cell) = change.new.as_slice().get(cell) else {
        return Err(Fail::from("so many cells do not come"));
    };
    if at > 4094 {
        return Err(Fail::from("there is no such place"));
    }
    let number = get16(cell.block().bytes(), at);
    Ok((rows(alloc, change)?, number))
}

// What comes of a fill of 5000 bytes.
fn filled(alloc: Global) -> Result<(Vec<Row>, u16), Fail> {
    let leaf = root_leaf(alloc)?;
    let fill = Given::Fill {
        key: byte(0),
        count: 5000,
        byte: 7,
    };
    let change = edited(alloc, &leaf, &[], &[fill], &[bytes(0, 5000)])?;
    told(alloc, &change, 1, 28)
}

// Bytes that all have one value, of which none is held.
#[test]
fn a_fill_comes_into_two_leaves(rt: HostRuntime) -> Result<(), Fail> {
    let (rows, begins) = filled(rt.alloc())?;
    let want = [(LEAF, 2, 0), (ROOT + 1, 1, 2978), (ROOT, 2, 3976)];
    same_rows(&rt, rows.as_slice(), want.as_slice());
    assert_eq!(rt; begins, 0x0707);
    Ok(())
}

// What comes of other stat data.
fn with_other_stat(alloc: Global) -> Result<(Vec<Row>, u16), Fail> {
    let leaf = root_leaf(alloc)?;
    let mut body = [0; 44];
    write_stat(
        &mut body,
        &Attr {
            mode: 0o40711,
            ..DIRECTORY
        },
    );
    let stat = Given::Item {
        key: least(),
        plugin: STAT,
        body: &body,
    };
    let range = only(least())?;
    let change = edited(alloc, &leaf, &[range], &[stat], &[range])?;
    told(alloc, &change, 0, 30)
}

// Other stat data comes in the place of the old.
#[test]
fn stat_data_is_overwritten(rt: HostRuntime) -> Result<(), Fail> {
    let (rows, mode) = with_other_stat(rt.alloc())?;
    same_rows(&rt, rows.as_slice(), &[(LEAF, 1, 3986)]);
    assert_eq!(rt; mode, 0o40711);
    Ok(())
}

// Letters that stand between those of the directory's names: three before "A", two before "a".
static BETWEEN: [u8; 5] = *b":;<[`";

// The leaf with the names of a directory behind all that it has.
fn put_names(alloc: Global, leaf: Arc<Cell>, dir: Oid, letters: &[u8]) -> Result<Arc<Cell>, Fail> {
    let from = name_key(dir, LETTERS[0], 1)?;
    let names = entries(alloc, dir, letters, 1)?;
    let change = with(alloc, &[leaf], from, ENTRIES, names.as_slice())?;
    first(&change)
}

// A leaf of two directories, with no room for another entry's item.
fn full_of_entries(alloc: Global) -> Result<Arc<Cell>, Fail> {
    let bare = empty_leaf(alloc, LEAF, least(), top())?;
    let some = put_names(alloc, bare, Oid(42), &LETTERS[..39])?;
    put_names(alloc, some, Oid(44), &LETTERS)
}

// The bodies of one entry each.
fn entry_bodies(alloc: Global) -> Result<Vec<Vec<u8>>, Fail> {
    let mut bodies = Vec::new(alloc);
    for letter in BETWEEN {
        bodies.push(entries(alloc, Oid(42), &[letter], 1)?)?;
    }
    Ok(bodies)
}

// The ranges of the entries.
fn entry_ranges(alloc: Global) -> Result<Vec<KeyRange>, Fail> {
    let mut ranges = Vec::new(alloc);
    for letter in BETWEEN {
        ranges.push(only(name_key(Oid(42), letter, 1)?)?)?;
    }
    Ok(ranges)
}

// The cells that come where the entries come into the leaf.
fn with_entries(
    alloc: Global,
    leaf: &Arc<Cell>,
    bodies: &[Vec<u8>],
    ranges: &[KeyRange],
) -> Result<Vec<Row>, Fail> {
    let mut items = Vec::new(alloc);
    for (range, body) in ranges.iter().zip(bodies) {
        items.push(Given::Item {
            key: range.from,
            plugin: ENTRIES,
            body: body.as_slice(),
        })?;
    }
    edited_rows(alloc, leaf, &[], items.as_slice(), ranges)
}

// The entries of the one directory stay one item, and some of the other one's come into a second leaf.
#[test]
fn five_entries_come_into_a_full_leaf(rt: HostRuntime) -> Result<(), Fail> {
    let alloc = rt.alloc();
    let leaf = full_of_entries(alloc)?;
    let bodies = entry_bodies(alloc)?;
    let ranges = entry_ranges(alloc)?;
    let rows = with_entries(alloc, &leaf, bodies.as_slice(), ranges.as_slice())?;
    let want = [(LEAF, 2, 38), (ROOT + 1, 1, 3778), (ROOT, 2, 3976)];
    same_rows(&rt, rows.as_slice(), want.as_slice());
    Ok(())
}

// The names of some cells, in their order.
fn names(alloc: Global, cells: &[Arc<Cell>]) -> Result<Vec<u64>, Fail> {
    let mut names = Vec::new(alloc);
    for cell in cells {
        names.push(cell.id().0)?;
    }
    Ok(names)
}

// A change that fills the leaf of a fresh volume.
fn filling(alloc: Global) -> Result<Change, Fail> {
    let leaf = root_leaf(alloc)?;
    let tail = Given::Item {
        key: byte(0),
        plugin: TAIL,
        body: &FILLING,
    };
    edited(alloc, &leaf, &[], &[tail], &[bytes(0, 3948)])
}

// A change that parts what it leaves.
fn parting(alloc: Global, one: &Change) -> Result<Change, Fail> {
    let leaf = first(one)?;
    edited(alloc, &leaf, &[bytes(100, 101)], &[], &[])
}

// Both as one.
fn both(alloc: Global) -> Result<Change, Fail> {
    let one = filling(alloc)?;
    let two = parting(alloc, &one)?;
    Ok(follow(alloc, &one, &two)?)
}

// How many items the first cell has that goes.
fn items_of_first(cells: &[Arc<Cell>]) -> Option<u16> {
    match cells.first() {
        Some(cell) => Some(get16(cell.block().bytes(), 2)),
        None => None,
    }
}

// The first change fills the leaf, and the second one parts what it leaves. Of both as one, the first leaf goes and the last
// ones come; the leaf between is in neither list.
#[test]
fn an_edit_follows_another(rt: HostRuntime) -> Result<(), Fail> {
    let change = both(rt.alloc())?;
    let names = names(rt.alloc(), change.old.as_slice())?;
    let rows = rows(rt.alloc(), &change)?;
    let want = [(LEAF, 3, 0), (ROOT + 1, 1, 3993), (ROOT, 2, 3976)];
    same_rows(&rt, rows.as_slice(), want.as_slice());
    assert!(rt; names.as_slice() == [LEAF, ROOT].as_slice());
    assert!(rt; items_of_first(change.old.as_slice()) == Some(1));
    Ok(())
}

//! What commands ask for and see of the volume, in each of its trees.

use crate::words::words;
use r4_base::Oid;
use r4_buffer::{Buffer, Reading};
use r4_cell::Root;
use r4_content::{Command, Seen};
use r4_gather::{Asked, see_for};
use r4_outside::Device;
use r4_search::Keeping;
use r4_seeing::Seeing;
use r4_tree_testing::{BLOCKS, Bodies, Counting, command, volume};
use std::alloc::Global;
use std::process::Abort;
use std::test::Fail;

/// A command, and the words of what it asks for with what is seen there (`words`).
pub type Row = (&'static str, &'static str);

// What a command asked for, in its order, and what was seen there.
#[derive(Drop)]
struct Looked {
    asked: Vec<Asked>,
    seen: Seen,
}

// The trees in which the volume stands, by how bodies do and by their heights.
static TREES: [(Bodies, u8); 5] = [
    (Bodies::Tails, 2),
    (Bodies::Tails, 3),
    (Bodies::Tails, 4),
    (Bodies::Extents, 2),
    (Bodies::Extents, 4),
];

// What a command asks for and sees in a tree on a device.
fn look(alloc: Global, dev: &mut Counting, root: Root, command: &Command) -> Result<Looked, Fail> {
    dev.reads.clear();
    dev.again = 0;
    if dev.blocks()? != BLOCKS || root.id.0 >= BLOCKS || root.height < 2 {
        return Err(Fail::from("the root is not on the device"));
    }
    let buffer = Buffer::new(alloc);
    let pool = Keeping::all(alloc, Reading::new(dev, &buffer, root, BLOCKS));
    let mut sight = Seeing::new(alloc, pool, root);
    let found = see_for(alloc, &mut sight, command);
    let (pool, seen, asked) = sight.into_parts();
    let _ = pool.into_pool().into_device();
    if found.is_err() {
        return Err(Fail::from("a look-up ended with a fault"));
    }
    Ok(Looked { asked, seen })
}

// Ends the test unless just what a row says was asked for and seen, and no block was read again.
fn looked_so<X: Abort>(
    rt: &X,
    alloc: Global,
    looked: &Looked,
    row: &Row,
    again: u64,
) -> Result<(), Fail> {
    let (text, wanted) = *row;
    let got = words(alloc, looked.asked.as_slice(), &looked.seen)?;
    assert_eq!(rt; got.as_str(), wanted, "{text}");
    assert_eq!(rt; again, 0, "{text}: blocks that are read again");
    Ok(())
}

// Ends the test unless the command of a row asks for just this and sees just this, and no block is
// read twice.
fn looks<X: Abort>(
    rt: &X,
    alloc: Global,
    tree: &mut (Counting, Root),
    row: &Row,
    made: Oid,
) -> Result<(), Fail> {
    let command = command(alloc, row.0, made)?;
    let looked = look(alloc, &mut tree.0, tree.1, &command)?;
    looked_so(rt, alloc, &looked, row, tree.0.again)
}

// The rows in one tree.
fn rows_look<X: Abort>(
    rt: &X,
    alloc: Global,
    tree: (Bodies, u8),
    rows: &[Row],
    made: Oid,
) -> Result<(), Fail> {
    let (device, root) = volume(alloc, tree.0, tree.1)?;
    let mut tree = (Counting::new(alloc, device), root);
    for row in rows {
        looks(rt, alloc, &mut tree, row, made)?;
    }
    Ok(())
}

/// Ends the test unless the command of each row asks for just this and sees just this, in each of
/// the trees, and no block is read twice for it. An object that is made gets a number.
pub fn all_look<X: Abort>(rt: &X, alloc: Global, rows: &[Row], made: Oid) -> Result<(), Fail> {
    for tree in &TREES {
        rows_look(rt, alloc, *tree, rows, made)?;
    }
    Ok(())
}

//! Cells of trees for tests, and what an edit makes of them.

use crate::trials::{LEAF, put};
use r4_base::{Attr, Block, Key, NodeId, Oid, get16};
use r4_cell::{Cell, Change, least, read_cell, top};
use r4_meta::write_stat;
use r4_node40::NodeMut;
use std::alloc::Global;
use std::sync::Arc;
use std::test::Fail;

/// The plugin of stat data.
pub const STAT: u16 = 0;

/// The plugin of bytes of a tail.
pub const TAIL: u16 = 6;

/// A number, how many items, and how many free bytes.
pub type Row = (u64, u16, u16);

/// The bytes of a tail: as many as an item has at most.
pub static ZEROS: [u8; 4030] = [0; 4030];

/// What the root directory has.
pub const DIRECTORY: Attr = Attr {
    mode: 0o40755,
    nlink: 2,
    size: 0,
    uid: 0,
    gid: 0,
    atime: 0,
    mtime: 0,
    ctime: 0,
    bytes: 0,
};

/// The key of a byte of a file.
pub fn byte(offset: u64) -> Key {
    Key::body(41, 0, Oid(42), offset)
}

/// A leaf without items.
pub fn empty_leaf(alloc: Global, id: u64, lo: Key, hi: Key) -> Result<Arc<Cell>, Fail> {
    let mut block = Block::zeroed(alloc)?;
    let _ = NodeMut::format(&mut block, 1, 1);
    let Ok(cell) = read_cell(alloc, NodeId(id), 1, lo, hi, 64, block) else {
        return Err(Fail::from("an empty leaf is refused"));
    };
    Ok(cell)
}

/// What comes in the place of the first leaf where an item is put behind all that it has.
pub fn with(
    alloc: Global,
    leaves: &[Arc<Cell>],
    key: Key,
    plugin: u16,
    body: &[u8],
) -> Result<Change, Fail> {
    match leaves.first() {
        Some(leaf) => with_between(alloc, leaves, key, leaf.hi(), plugin, body),
        None => Err(Fail::from("there is no leaf")),
    }
}

/// What comes where an item is put between those of the first leaf, up to a key.
pub fn with_between(
    alloc: Global,
    leaves: &[Arc<Cell>],
    key: Key,
    end: Key,
    plugin: u16,
    body: &[u8],
) -> Result<Change, Fail> {
    match put(alloc, leaves, &key, &end, plugin, body) {
        Ok(Some(change)) => Ok(change),
        Ok(None) => Err(Fail::from("it may not be put there")),
        Err(_) => Err(Fail::from("there is no memory")),
    }
}

/// The first new cell.
pub fn first(change: &Change) -> Result<Arc<Cell>, Fail> {
    match change.new.as_slice().first() {
        Some(cell) => Ok(Arc::try_clone(cell)?),
        None => Err(Fail::from("no cell comes")),
    }
}

/// The leaf of all keys with the stat data of the root.
pub fn root_leaf(alloc: Global) -> Result<Arc<Cell>, Fail> {
    let mut stat = [0; 44];
    write_stat(&mut stat, &DIRECTORY);
    let leaf = empty_leaf(alloc, LEAF, least(), top())?;
    first(&with(alloc, &[leaf], least(), STAT, &stat)?)
}

/// The new cells, the lowest first.
pub fn rows(alloc: Global, change: &Change) -> Result<Vec<Row>, Fail> {
    let mut rows = Vec::new(alloc);
    for cell in change.new.as_slice() {
        let bytes = cell.block().bytes();
        rows.push((cell.id().0, get16(bytes, 2), get16(bytes, 4)))?;
    }
    Ok(rows)
}

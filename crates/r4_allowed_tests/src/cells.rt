//! A twig, and a root over it.

use r4_base::{Key, NodeId, Oid};
use r4_cell::{Cell, Root, least, read_cell, top};
use r4_tree_testing::{Item, node, pointer};
use std::alloc::Global;
use std::sync::Arc;
use std::test::Fail;

/// The number of the twig.
pub const LOW: NodeId = NodeId(30);

/// The root, above the twig.
pub const ROOT: Root = Root {
    id: NodeId(31),
    height: 3,
};

// A leaf that is only named.
const LEAF: u64 = 40;

/// How many pointers a node has at most.
pub const MOST: u64 = 88;

/// The twig, and a root with so many pointers, the first of which is to the twig.
pub fn two_levels(alloc: Global, pointers: u64) -> Result<Vec<Arc<Cell>>, Fail> {
    let mut cells = Vec::new(alloc);
    cells.push(twig(alloc)?)?;
    cells.push(root(alloc, pointers)?)?;
    Ok(cells)
}

// The twig, which has one leaf.
fn twig(alloc: Global) -> Result<Arc<Cell>, Fail> {
    let items = [pointer(alloc, least(), LEAF)?];
    cell(alloc, LOW, 2, byte(1), &items)
}

// The root, which names other nodes behind the twig.
fn root(alloc: Global, pointers: u64) -> Result<Arc<Cell>, Fail> {
    let mut items = Vec::new(alloc);
    items.push(pointer(alloc, least(), LOW.0)?)?;
    for offset in 1..pointers {
        items.push(pointer(alloc, byte(offset), LEAF)?)?;
    }
    cell(alloc, ROOT.id, ROOT.height, top(), items.as_slice())
}

// The key of a byte of a file.
fn byte(offset: u64) -> Key {
    Key::body(42, 0, Oid(65536), offset)
}

// The node of these items as a cell, from the least key on.
fn cell(alloc: Global, id: NodeId, level: u8, hi: Key, items: &[Item]) -> Result<Arc<Cell>, Fail> {
    match read_cell(
        alloc,
        id,
        level,
        least(),
        hi,
        64,
        node(alloc, level, items)?,
    ) {
        Ok(cell) => Ok(cell),
        Err(_) => Err(Fail::from("a cell is refused")),
    }
}

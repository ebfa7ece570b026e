//! Nodes with a few items, as cells.

use r4_base::{Block, Key, NodeId};
use r4_cell::{Cell, read_cell};
use r4_tree_testing::{Item, extent, node, pointer};
use std::alloc::Global;
use std::sync::Arc;
use std::test::Fail;

/// A place in a tree: a number, a level, and a range of keys.
#[derive(Clone, Copy)]
pub struct Place {
    pub id: u64,
    pub level: u8,
    pub lo: Key,
    pub hi: Key,
}

/// A node that is made: a leaf without items, by its number and its range; a node with pointers from these keys on; or a
/// twig with a pointer and, from a key on, an extent of so many blocks.
#[derive(Clone, Copy)]
pub enum Made {
    Leaf(u64, Key, Key),
    Branch(Place, [(Key, u64); 2]),
    Twig(Place, (Key, u64), (Key, u64, u64)),
}

impl Made {
    // The node as a cell.
    fn cell(&self, alloc: Global) -> Result<Arc<Cell>, Fail> {
        match *self {
            Made::Leaf(id, lo, hi) => leaf(alloc, id, lo, hi),
            Made::Branch(place, to) => branch(alloc, place, to),
            Made::Twig(place, to, blocks) => twig(alloc, place, to, blocks),
        }
    }
}

/// The nodes as cells.
pub fn cells(alloc: Global, made: &[Made]) -> Result<Vec<Arc<Cell>>, Fail> {
    let mut cells = Vec::new(alloc);
    for one in made {
        cells.push(one.cell(alloc)?)?;
    }
    Ok(cells)
}

// A leaf without items.
fn leaf(alloc: Global, id: u64, lo: Key, hi: Key) -> Result<Arc<Cell>, Fail> {
    let place = Place {
        id,
        level: 1,
        lo,
        hi,
    };
    with_items(alloc, place, &[])
}

// Pointers from these keys on.
fn pointers(alloc: Global, to: &[(Key, u64)]) -> Result<Vec<Item>, Fail> {
    let mut items = Vec::new(alloc);
    for &(key, id) in to {
        items.push(pointer(alloc, key, id)?)?;
    }
    Ok(items)
}

// A node with pointers.
fn branch(alloc: Global, place: Place, to: [(Key, u64); 2]) -> Result<Arc<Cell>, Fail> {
    let items = pointers(alloc, &to)?;
    with_items(alloc, place, items.as_slice())
}

// A twig with a pointer and an extent.
fn twig(
    alloc: Global,
    place: Place,
    to: (Key, u64),
    blocks: (Key, u64, u64),
) -> Result<Arc<Cell>, Fail> {
    let (first, start, width) = blocks;
    let mut items = pointers(alloc, &[to])?;
    items.push(extent(alloc, first, &[(start, width)])?)?;
    with_items(alloc, place, items.as_slice())
}

// The node of these items as a cell at a place.
fn with_items(alloc: Global, place: Place, items: &[Item]) -> Result<Arc<Cell>, Fail> {
    cell(alloc, place, node(alloc, place.level, items)?)
}

// The block as a cell at a place.
fn cell(alloc: Global, place: Place, block: Block) -> Result<Arc<Cell>, Fail> {
    let Place { id, level, lo, hi } = place;
    match read_cell(alloc, NodeId(id), level, lo, hi, 64, block) {
        Ok(cell) => Ok(cell),
        Err(_) => Err(Fail::from("a cell is refused")),
    }
}

//! Cells with items that tests write down.

use r4_base::{Block, Key, Memory, NodeId, Oid, get64};
use r4_cell::{Cell, read_cell};
use std::alloc::Global;
use std::sync::Arc;
use std::test::Fail;

/// An item of a node: the offset of its key, its plugin, and how many bytes it has; the number to which a pointer points,
/// or the first and the number of the blocks of an extent.
#[derive(Clone, Copy)]
pub(crate) enum Put {
    Tail(u64, usize),
    To(u64, u64),
    Extent(u64, u64, u64),
}

impl Put {
    /// The same, with its key so much farther on.
    pub(crate) fn behind(&self, by: u64) -> Put {
        match *self {
            Put::Tail(offset, len) => Put::Tail(offset.wrapping_add(by), len),
            Put::To(offset, to) => Put::To(offset.wrapping_add(by), to),
            Put::Extent(offset, start, width) => {
                Put::Extent(offset.wrapping_add(by), start, width)
            }
        }
    }
}

/// The key of a byte of a file; offset 0 of the first cell is its beginning.
pub(crate) fn byte(offset: u64) -> Key {
    Key::body(41, 0, Oid(42), offset)
}

/// An item of a node.
#[derive(Drop)]
pub(crate) struct Item {
    pub key: Key,
    pub plugin: u16,
    pub body: Vec<u8>,
}

impl Put {
    // The item that it says.
    fn item(&self, alloc: Global) -> Result<Item, Memory> {
        let mut body = Vec::new(alloc);
        self.spell(&mut body)?;
        let (offset, plugin) = match *self {
            Put::Tail(offset, _) => (offset, 6),
            Put::To(offset, _) => (offset, 3),
            Put::Extent(offset, _, _) => (offset, 5),
        };
        Ok(Item {
            key: byte(offset),
            plugin,
            body,
        })
    }

    // The bytes of its body.
    fn spell(&self, body: &mut Vec<u8>) -> Result<(), Memory> {
        match *self {
            Put::Tail(_, len) => body.resize(len, 0),
            Put::To(_, to) => body.extend_from_slice(&to.to_le_bytes()),
            Put::Extent(_, start, width) => {
                body.extend_from_slice(&start.to_le_bytes())?;
                body.extend_from_slice(&width.to_le_bytes())
            }
        }
    }
}

// The lower two bytes of a number.
fn low_bytes(number: usize) -> [u8; 2] {
    let bytes = number.to_le_bytes();
    [bytes[0], bytes[1]]
}

// The header of an item whose body begins at a place.
fn add_header(bytes: &mut Vec<u8>, item: &Item, at: usize) -> Result<(), Memory> {
    for part in &item.key.el {
        bytes.extend_from_slice(&part.to_le_bytes())?;
    }
    bytes.extend_from_slice(&low_bytes(at))?;
    bytes.extend_from_slice(&[0; 2])?;
    bytes.extend_from_slice(&item.plugin.to_le_bytes())
}

// The headers of items, the last one first, whose bodies end at a place.
fn add_headers(bytes: &mut Vec<u8>, items: &[Item], end: usize) -> Result<(), Memory> {
    let mut end = end;
    for item in items.iter().rev() {
        end = end.wrapping_sub(item.body.len());
        add_header(bytes, item, end)?;
    }
    Ok(())
}

// The bodies of items, one after the other.
fn add_bodies(bytes: &mut Vec<u8>, items: &[Item]) -> Result<(), Memory> {
    for item in items {
        bytes.extend_from_slice(item.body.as_slice())?;
    }
    Ok(())
}

// The header of a node. The counts are how many items there are, how many bytes are free, and where those begin.
fn add_front(bytes: &mut Vec<u8>, level: u8, counts: [usize; 3]) -> Result<(), Memory> {
    bytes.extend_from_slice(&[0; 2])?;
    for count in counts {
        bytes.extend_from_slice(&low_bytes(count))?;
    }
    bytes.extend_from_slice(&0x5234_4653u32.to_le_bytes())?;
    bytes.extend_from_slice(&7u32.to_le_bytes())?;
    bytes.extend_from_slice(&[0; 10])?;
    bytes.extend_from_slice(&[level, 0])
}

// How many bytes the bodies of items have.
fn bodies_len(items: &[Item]) -> usize {
    let mut len: usize = 0;
    for item in items {
        len = len.wrapping_add(item.body.len());
    }
    len
}

// Makes the bytes of a node (docs/layout.md, "Nodes").
fn add_node(bytes: &mut Vec<u8>, level: u8, items: &[Item]) -> Result<(), Memory> {
    let start = bodies_len(items).wrapping_add(28);
    let free = 4096usize
        .wrapping_sub(start)
        .wrapping_sub(items.len().wrapping_mul(38));
    add_front(bytes, level, [items.len(), free, start])?;
    add_bodies(bytes, items)?;
    bytes.resize(bytes.len().wrapping_add(free.min(4096)), 0)?;
    add_headers(bytes, items, start)
}

// A block of a node of a level, with these items.
fn block_of(alloc: Global, level: u8, items: &[Item]) -> Result<Block, Fail> {
    let mut bytes = Vec::new(alloc);
    add_node(&mut bytes, level, items)?;
    block_from(alloc, bytes.as_slice())
}

// A block of these bytes.
fn block_from(alloc: Global, bytes: &[u8]) -> Result<Block, Fail> {
    if bytes.len() != 4096 {
        return Err(Fail::from("no block"));
    }
    let mut block = Block::zeroed(alloc)?;
    block.bytes_mut().copy_from_slice(bytes);
    Ok(block)
}

/// A cell of a level for a range of keys, with these items.
pub(crate) fn cell_of(
    alloc: Global,
    id: u64,
    level: u8,
    range: (Key, Key),
    items: &[Item],
) -> Result<Arc<Cell>, Fail> {
    let block = block_of(alloc, level, items)?;
    let Ok(cell) = read_cell(alloc, NodeId(id), level, range.0, range.1, 100_000, block) else {
        return Err(Fail::from("refused"));
    };
    Ok(cell)
}

/// A cell of a level for the keys between two offsets, with these items.
pub(crate) fn cell(
    alloc: Global,
    id: u64,
    level: u8,
    range: (u64, u64),
    items: &[Put],
) -> Result<Arc<Cell>, Fail> {
    let made = items_of(alloc, items)?;
    let range = (byte(range.0), byte(range.1));
    cell_of(alloc, id, level, range, made.as_slice())
}

// The items.
fn items_of(alloc: Global, puts: &[Put]) -> Result<Vec<Item>, Memory> {
    let mut items = Vec::new(alloc);
    for put in puts {
        items.push(put.item(alloc)?)?;
    }
    Ok(items)
}

// A cell as a text: its number and offsets, and of each item the offset and the number of bytes, or what a pointer
// points to.
fn tell(alloc: Global, text: &mut String, cell: &Cell) -> Result<(), Fail> {
    let (id, lo, hi) = (cell.id().0, cell.lo().el[3], cell.hi().el[3]);
    text.push_str(format!(in alloc; "{id} {lo}..{hi}:")?.as_str())?;
    if cell.level() == 0 {
        return Err(Fail::from("no node"));
    }
    let node = cell.node();
    for i in 0..node.len() {
        let item = node.item(i);
        tell_item(
            alloc,
            text,
            item.key.el[3],
            number_of(item.plugin, item.body),
        )?;
    }
    text.push_str("\n")?;
    Ok(())
}

// The sign and the number of an item: to what it points, or how many bytes it has.
fn number_of(plugin: u16, body: &[u8]) -> (char, u64) {
    if plugin == 3 && body.len() == 8 {
        ('>', get64(body, 0))
    } else {
        ('+', body.len() as u64)
    }
}

// An item of a cell, from this offset on.
fn tell_item(
    alloc: Global,
    text: &mut String,
    offset: u64,
    number: (char, u64),
) -> Result<(), Fail> {
    let (sign, number) = number;
    text.push_str(format!(in alloc; " {offset}{sign}{number}")?.as_str())?;
    Ok(())
}

/// Cells as a text.
pub(crate) fn text_of(alloc: Global, cells: &[Arc<Cell>]) -> Result<String, Fail> {
    let mut text = String::new(alloc);
    for cell in cells {
        tell(alloc, &mut text, cell)?;
    }
    Ok(text)
}

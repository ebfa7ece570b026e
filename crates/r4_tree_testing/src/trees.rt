//! Trees with a file: /a has 16,384 bytes in five leaves, each full but for the last: blocks 23 to
//! 27.

use crate::items::{Item, entry, pointer, stat, tail};
use crate::nodes::{empty_device, lay};
use r4_base::{Attr, Key, NodeId, Oid, Target};
use r4_cell::{Root, least};
use r4_outside::MemoryDevice;
use std::alloc::Global;
use std::test::Fail;

// What the root directory has.
const DIRECTORY: Attr = Attr {
    mode: 0o40755,
    nlink: 2,
    size: 1,
    uid: 0,
    gid: 0,
    atime: 0,
    mtime: 0,
    ctime: 0,
    bytes: 0,
};

const FILE: Attr = Attr {
    mode: 0o100644,
    nlink: 1,
    size: 16_384,
    ..DIRECTORY
};

const ORDERING: u64 = 27_303_072_740_933_632;

// The file "a" in the root directory.
const A: Target = Target {
    locality: 42,
    ordering: ORDERING,
    oid: Oid(65_536),
};

// The offsets at which the leaves of the file begin, but for the first.
const BORDERS: [u64; 4] = [3776, 7806, 11_836, 15_866];

// The next block.
fn next(at: u64) -> u64 {
    at.saturating_add(1)
}

// The key of a byte of the file.
fn byte(offset: u64) -> Key {
    Key::body(42, ORDERING, A.oid, offset)
}

// The first leaf: the root directory, the file, and its first bytes; no byte is free in it.
fn first_leaf(alloc: Global, dev: &mut MemoryDevice) -> Result<(), Fail> {
    let mut items = Vec::new(alloc);
    items.push(stat(alloc, least(), &DIRECTORY)?)?;
    items.push(entry(alloc, Oid(42), b"a", &A)?)?;
    items.push(stat(alloc, Key::stat(42, ORDERING, A.oid), &FILE)?)?;
    items.push(tail(alloc, byte(0), 3776, b'1')?)?;
    lay(alloc, dev, 23, 1, items.as_slice())
}

// The further leaves of the file.
fn more_leaves(alloc: Global, dev: &mut MemoryDevice) -> Result<(), Fail> {
    let mut at = 24;
    for border in BORDERS {
        let len = if at == 27 { 518 } else { 4030 };
        let items = [tail(alloc, byte(border), len, b'2')?];
        lay(alloc, dev, at, 1, &items)?;
        at = next(at);
    }
    Ok(())
}

// Pointers to the leaves.
fn pointers(alloc: Global) -> Result<Vec<Item>, Fail> {
    let mut items = Vec::new(alloc);
    items.push(pointer(alloc, least(), 23)?)?;
    let mut at = 24;
    for border in BORDERS {
        items.push(pointer(alloc, byte(border), at)?)?;
        at = next(at);
    }
    Ok(items)
}

// So many pointers to block 40, which is no node, behind all keys of the file; those of a higher
// level come behind those of a lower one.
fn add_others(alloc: Global, items: &mut Vec<Item>, level: u8, count: u64) -> Result<(), Fail> {
    for i in 0..count {
        let key = Key {
            el: [(100_000 * u64::from(level)).saturating_add(i), 0, 0, 0],
        };
        items.push(pointer(alloc, key, 40)?)?;
    }
    Ok(())
}

/// The file below a twig with room, and so many further levels above it, each of one node with one
/// pointer: the nodes are blocks 22, and 30 and above.
pub fn with_room(alloc: Global, levels: u8) -> Result<(MemoryDevice, Root), Fail> {
    let mut dev = empty_device(alloc)?;
    first_leaf(alloc, &mut dev)?;
    more_leaves(alloc, &mut dev)?;
    lay(alloc, &mut dev, 22, 2, pointers(alloc)?.as_slice())?;
    let mut root = Root {
        id: NodeId(22),
        height: 2,
    };
    for more in 0..levels {
        let items = [pointer(alloc, least(), root.id.0)?];
        root = Root {
            id: NodeId(30 + u64::from(more)),
            height: more.saturating_add(3),
        };
        lay(alloc, &mut dev, root.id.0, root.height, &items)?;
    }
    Ok((dev, root))
}

/// The first leaf of the file below full nodes: of each of these levels, from 2 on, one with 88
/// pointers. They are blocks 24 and above, the twig first; all pointers but the first of each name
/// block 40.
///
/// # Errors
/// Where there is no memory, or the device has no such block.
pub fn full(alloc: Global, levels: u8) -> Result<(MemoryDevice, Root), Fail> {
    let mut dev = empty_device(alloc)?;
    first_leaf(alloc, &mut dev)?;
    let mut root = Root {
        id: NodeId(23),
        height: 1,
    };
    for more in 0..levels {
        let mut items = Vec::new(alloc);
        items.push(pointer(alloc, least(), root.id.0)?)?;
        add_others(alloc, &mut items, more.saturating_add(1), 87)?;
        root = Root {
            id: NodeId(24 + u64::from(more)),
            height: more.saturating_add(2),
        };
        lay(alloc, &mut dev, root.id.0, root.height, items.as_slice())?;
    }
    Ok((dev, root))
}

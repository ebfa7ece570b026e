//! The volumes on which jobs run.

use r4_base::{Block, BlockNo, Oid};
use r4_cell::least;
use r4_mkfs::mkfs;
use r4_outside::{Device, MemoryDevice};
use r4_tree_testing::{Object, ROOT, entry, lay, pointer, stat, tail};
use std::alloc::Global;
use std::test::Fail;

/// A fresh volume of so many blocks; or one of 1,024 with two files in tails, `/a` and `/b`, of
/// 16,384 bytes each, all of them the file's letter; or a fresh one of 64 whose root names block 70.
#[derive(Clone, Copy, Debug, PartialEq, Eq)]
pub enum Image {
    Fresh(u64),
    TwoFiles,
    Damaged,
}

// The root directory.
const TOP: Object = Object {
    nlink: 2,
    size: 2,
    ..ROOT
};

// `/a`.
const A: Object = Object {
    letter: b'a',
    dir: 42,
    oid: 65_536,
    mode: 0o100644,
    nlink: 1,
    size: 16_384,
};

// `/b`.
const B: Object = Object {
    letter: b'b',
    dir: 42,
    oid: 65_537,
    mode: 0o100644,
    nlink: 1,
    size: 16_384,
};

// The leaves with bytes: the block, and the first piece in it, by its file, its first byte and its
// length. In block 28 more bytes follow.
static LEAVES: [(u64, Object, u64, u16); 9] = [
    (24, A, 0, 4000),
    (25, A, 4000, 4000),
    (26, A, 8000, 4000),
    (27, A, 12_000, 4000),
    (28, A, 16_000, 384),
    (29, B, 3000, 4000),
    (30, B, 7000, 4000),
    (31, B, 11_000, 4000),
    (32, B, 15_000, 1384),
];

/// The device of a volume.
///
/// # Errors
/// Where there is no memory, or the volume is not made.
pub fn device(alloc: Global, image: Image) -> Result<MemoryDevice, Fail> {
    match image {
        Image::Fresh(blocks) => fresh(alloc, blocks),
        Image::TwoFiles => {
            let mut dev = fresh(alloc, 1024)?;
            put_files(alloc, &mut dev)?;
            Ok(dev)
        }
        Image::Damaged => {
            let mut dev = fresh(alloc, 64)?;
            patch(alloc, &mut dev, 22, 28, &[70])?;
            Ok(dev)
        }
    }
}

// A fresh volume.
fn fresh(alloc: Global, blocks: u64) -> Result<MemoryDevice, Fail> {
    let mut dev = MemoryDevice::plain(alloc, blocks)?;
    match mkfs(alloc, &mut dev, b"") {
        Ok(_) => Ok(dev),
        Err(_) => Err(Fail::from("no volume is made")),
    }
}

// Two files are put into a fresh volume of 1,024 blocks: its tree, the bits of nine blocks, and in
// the superblock how many are free, the next id and how many objects there are.
fn put_files(alloc: Global, dev: &mut MemoryDevice) -> Result<(), Fail> {
    put_objects(alloc, dev)?;
    put_bytes(alloc, dev)?;
    put_twig(alloc, dev)?;
    patch(alloc, dev, 18, 7, &[255, 1])?;
    patch(alloc, dev, 17, 8, &991u64.to_le_bytes())?;
    patch(alloc, dev, 17, 24, &65_538u64.to_le_bytes())?;
    patch(alloc, dev, 17, 32, &3u64.to_le_bytes())
}

// The leaf of the root directory, with the attributes of the files.
fn put_objects(alloc: Global, dev: &mut MemoryDevice) -> Result<(), Fail> {
    let items = [
        stat(alloc, least(), &TOP.attr())?,
        entry(alloc, Oid(42), b"a", &A.target())?,
        entry(alloc, Oid(42), b"b", &B.target())?,
        stat(alloc, A.stat_key(), &A.attr())?,
        stat(alloc, B.stat_key(), &B.attr())?,
    ];
    lay(alloc, dev, 23, 1, &items)
}

// The leaves of the files' bytes.
fn put_bytes(alloc: Global, dev: &mut MemoryDevice) -> Result<(), Fail> {
    for (at, file, from, len) in &LEAVES {
        let items = [tail(alloc, file.byte(*from), *len, file.letter)?];
        lay(alloc, dev, *at, 1, &items)?;
    }
    let items = [
        tail(alloc, A.byte(16_000), 384, b'a')?,
        tail(alloc, B.byte(0), 3000, b'b')?,
    ];
    lay(alloc, dev, 28, 1, &items)
}

// The twig over all leaves, which is the root.
fn put_twig(alloc: Global, dev: &mut MemoryDevice) -> Result<(), Fail> {
    let mut items = Vec::new(alloc);
    items.push(pointer(alloc, least(), 23)?)?;
    for (at, file, from, _) in &LEAVES {
        items.push(pointer(alloc, file.byte(*from), *at)?)?;
    }
    lay(alloc, dev, 22, 2, items.as_slice())
}

// Bytes are put into a block from a place on.
fn patch(
    alloc: Global,
    dev: &mut MemoryDevice,
    at: u64,
    from: usize,
    bytes: &[u8],
) -> Result<(), Fail> {
    if at >= dev.blocks()? {
        return Err(Fail::from("the device has no such block"));
    }
    let mut block = Block::zeroed(alloc)?;
    dev.read(BlockNo(at), &mut block)?;
    set(block.bytes_mut(), from, bytes);
    dev.write(BlockNo(at), &block)?;
    Ok(())
}

// Puts these bytes over others from a place on, as far as there are some.
fn set(bytes: &mut [u8], from: usize, put: &[u8]) {
    let mut at = from;
    for byte in put {
        if let Some(there) = bytes.get_mut(at) {
            *there = *byte;
        }
        at = at.saturating_add(1);
    }
}

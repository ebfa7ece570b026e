//! A tree that cannot grow: it has the greatest height, and no room on the way to its first leaf.

use crate::changed::{Change, change, runs_so};
use r4_base::Key;
use r4_cell::least;
use r4_outside::MemoryDevice;
use r4_run_testing::fresh;
use r4_tree_testing::{Item, Object, ROOT, lay, pointer, stat, tail};
use std::alloc::Global;
use std::test::Fail;

// The root directory, without an entry.
const TOP: Object = Object {
    nlink: 2,
    size: 0,
    ..ROOT
};

// The blocks of the nodes above the leaf, from level 2 to level 8.
static NODES: [u64; 7] = [22, 24, 25, 26, 27, 28, 29];

// In the superblock the number of free blocks, the root and the height; in the bitmap the bits of blocks
// 24 to 29 and 40.
static CHANGES: [Change<'static>; 5] = [
    (17, 8, &[33]),
    (17, 16, &[29]),
    (17, 68, &[8]),
    (18, 7, &[0x3f]),
    (18, 9, &[1]),
];

// Lays the leaf: the root directory, and bytes of a file that fill it.
fn lay_leaf(alloc: Global, dev: &mut MemoryDevice) -> Result<(), Fail> {
    let body = Key {
        el: [676, 0, 65_536, 0],
    };
    let items = [
        stat(alloc, least(), &TOP.attr())?,
        tail(alloc, body, 3948, b'x')?,
    ];
    lay(alloc, dev, 23, 1, &items)
}

// The 88 pointers of a node: the first leads on, and the others, behind all keys in use, name block 40.
fn pointers(alloc: Global, level: u8, below: u64) -> Result<Vec<Item>, Fail> {
    let mut items = Vec::new(alloc);
    items.push(pointer(alloc, least(), below)?)?;
    for i in 0..87u64 {
        let key = Key {
            el: [(100_000 * u64::from(level)).saturating_add(i), 0, 0, 0],
        };
        items.push(pointer(alloc, key, 40)?)?;
    }
    Ok(items)
}

// Lays the nodes above the leaf.
fn lay_nodes(alloc: Global, dev: &mut MemoryDevice) -> Result<(), Fail> {
    let (mut level, mut below) = (2u8, 23u64);
    for at in &NODES {
        let items = pointers(alloc, level, below)?;
        lay(alloc, dev, *at, level, items.as_slice())?;
        level = level.saturating_add(1);
        below = *at;
    }
    Ok(())
}

// Puts the tree into a fresh volume.
fn lay_tree(alloc: Global, dev: &mut MemoryDevice) -> Result<(), Fail> {
    lay_leaf(alloc, dev)?;
    lay_nodes(alloc, dev)?;
    change(alloc, dev, &CHANGES)
}

const TEXT: &str = "script\ncreate /a\nstat /\n";

const TOLD: &str = "\
refused t0 s1 c1 tall 8\n\
begin t1 s1\n\
done t1 s1 c2 attr 40755 2 0 0 0 0 0 0\n\
ended t1\n\
sealed a1\n\
committed a1\n";

#[test]
fn tree_of_eight_levels_does_not_grow(rt: HostRuntime) -> Result<(), Fail> {
    let mut dev = fresh(&rt, rt.alloc(), 64)?;
    lay_tree(rt.alloc(), &mut dev)?;
    runs_so(&rt, rt.alloc(), &mut dev, TEXT, TOLD)
}

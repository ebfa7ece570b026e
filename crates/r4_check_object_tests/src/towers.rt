//! Trees of heights 3 and 8, each of whose nodes above the twig has one pointer.

use crate::laid::{Shape, finds, shaped};
use r4_cell::least;
use r4_outside::MemoryDevice;
use r4_tree_testing::{lay, pointer};
use std::alloc::Global;
use std::process::Abort;
use std::test::Fail;

// The blocks of the nodes above the twig of a tree of height 8, level 3 first; the tree of height 3 has the first alone.
const LEVELS: [(u64, u8); 6] = [(30, 3), (31, 4), (32, 5), (33, 6), (34, 7), (35, 8)];

const LOW: Shape = Shape {
    root: 30,
    height: 3,
    files: 1,
    used: [0x40, 0, 0],
    count: 1,
};

const HIGH: Shape = Shape {
    root: 35,
    height: 8,
    files: 1,
    used: [0xc0, 0x0f, 0],
    count: 6,
};

// A tree of this shape, whose node of level 3 points to a block.
fn tower(alloc: Global, shape: &Shape, to: u64) -> Result<MemoryDevice, Fail> {
    let mut dev = shaped(alloc, shape)?;
    pile_up(alloc, &mut dev, shape.height, to)?;
    Ok(dev)
}

// Lays the nodes above the twig, each of which points to the one below it.
fn pile_up(alloc: Global, dev: &mut MemoryDevice, height: u8, to: u64) -> Result<(), Fail> {
    let mut below = to;
    for (block, level) in LEVELS {
        if level <= height {
            lay_one(alloc, dev, block, level, below)?;
            below = block;
        }
    }
    Ok(())
}

// Lays a node with one pointer.
fn lay_one(alloc: Global, dev: &mut MemoryDevice, at: u64, level: u8, to: u64) -> Result<(), Fail> {
    let mut items = Vec::new(alloc);
    items.push(pointer(alloc, least(), to)?)?;
    lay(alloc, dev, at, level, items.as_slice())
}

// What a check prints of a tree of this shape whose node of level 3 points to a block.
fn tower_finds<X: Abort>(
    rt: &X,
    alloc: Global,
    shape: &Shape,
    to: u64,
    lines: &str,
    counts: (u64, u64),
) -> Result<(), Fail> {
    let mut dev = tower(alloc, shape, to)?;
    finds(rt, alloc, &mut dev, lines, counts.0, counts.1)
}

// To which block the node of level 3 points, the lines, and the numbers of objects and of faults.
static WALKS: [(u64, &str, (u64, u64)); 3] = [
    (22, "", (1, 0)),
    (70, "fault block 30: pointer\n", (0, 1)),
    (23, "fault block 23: level\n", (0, 1)),
];

#[test]
fn high_trees_are_walked(rt: HostRuntime) -> Result<(), Fail> {
    for (to, lines, counts) in WALKS {
        tower_finds(&rt, rt.alloc(), &LOW, to, lines, counts)?;
        tower_finds(&rt, rt.alloc(), &HIGH, to, lines, counts)?;
    }
    Ok(())
}

#[test]
fn high_trees_name_no_node_twice(rt: HostRuntime) -> Result<(), Fail> {
    let alloc = rt.alloc();
    tower_finds(&rt, alloc, &LOW, 30, "fault block 30: twice\n", (0, 1))?;
    tower_finds(&rt, alloc, &HIGH, 35, "fault block 35: twice\n", (0, 1))
}

#[test]
fn high_trees_have_their_bits(rt: HostRuntime) -> Result<(), Fail> {
    let bare = Shape {
        used: [0xc0, 0x0d, 0],
        count: 5,
        ..HIGH
    };
    let line = "fault block 33: unmarked\n";
    tower_finds(&rt, rt.alloc(), &bare, 22, line, (1, 1))
}

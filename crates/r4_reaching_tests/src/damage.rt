//! What is answered where a block is damaged: it is told where it is met, and only there.

use crate::rows::none_differ;
use r4_base::Key;
use r4_cell::{Root, least};
use r4_outside::MemoryDevice;
use r4_reach_testing::{Row, Telling, differences};
use r4_tree_testing::{Bodies, NEXT, lay, lay_bytes, pointer, volume};
use std::alloc::Global;
use std::test::Fail;

// A block that is zeros, in tails at height 4, and a command.
static ROWS: [(u64, Row); 26] = [
    // The root: also where nothing is asked for.
    (33, ("stat /", "damaged 33")),
    (33, ("commit", "damaged 33")),
    // Nodes on a way, and beside it.
    (31, ("stat /", "damaged 31")),
    (22, ("names /", "damaged 22")),
    (22, ("create /", "damaged 22")),
    (32, ("stat /f", "reads 23 24")),
    (32, ("write /f 9000 x", "damaged 32")),
    (30, ("create /n", "writes 23 24, 2 new")),
    (30, ("create /d/n", "damaged 30")),
    (30, ("names /d", "damaged 30")),
    // A leaf: where a key in it is asked for, or changes.
    (23, ("stat /", "damaged 23")),
    (24, ("stat /", "reads 23")),
    (24, ("names /", "reads 23")),
    (24, ("create /f", "reads 23")),
    (24, ("create /n", "damaged 24")),
    (24, ("stat /f", "damaged 24")),
    (25, ("read /f 3999 2", "damaged 25")),
    (25, ("read /f 4000 9", "reads 23 24 26")),
    (25, ("write /f 8999 x", "reads 23 24, writes 27, 1 new")),
    (25, ("unlink /f", "damaged 25")),
    (25, ("rename /f /n", "reads 24, writes 23, 1 new")),
    (27, ("write /f 9000 x", "damaged 27")),
    (28, ("rename /f /h", "writes 23 24, 2 new")),
    (29, ("rmdir /e", "damaged 29")),
    (29, ("rename /e /f", "reads 23 24")),
    (29, ("rename /e /d", "damaged 29")),
];

// Where a twig names one leaf for two ranges, no command goes on that meets both; and where nothing
// is met but the leaf, by its own range, its other name tells it.
static TWICE: [Row; 4] = [
    ("stat /", "damaged 23"),
    ("stat /f", "damaged 23"),
    ("create /n", "damaged 23"),
    ("commit", "damaged 23"),
];

// Where it names another node again that is not met, nothing is told.
static BESIDE: [Row; 5] = [
    ("stat /", "reads 23"),
    ("names /", "reads 23"),
    ("chmod / 0", "writes 23, 1 new"),
    ("rename /f /f", "damaged 24"),
    ("stat /f", "damaged 24"),
];

// A root that names block 23, and another one for the keys from the stat data on and, again, for
// those of bodies.
fn named_again(alloc: Global, other: u64) -> Result<(MemoryDevice, Root), Fail> {
    let (mut dev, root) = volume(alloc, Bodies::Tails, 2)?;
    let items = [
        pointer(alloc, least(), 23)?,
        pointer(alloc, Key { el: [673, 0, 0, 0] }, other)?,
        pointer(alloc, Key { el: [676, 0, 0, 0] }, other)?,
    ];
    lay(alloc, &mut dev, root.id.0, 2, &items)?;
    Ok((dev, root))
}

#[test]
fn damage_is_told_where_it_is_met(rt: HostRuntime) -> Result<(), Fail> {
    let alloc = rt.alloc();
    for (block, row) in &ROWS {
        let (mut dev, root) = volume(alloc, Bodies::Tails, 4)?;
        lay_bytes(alloc, &mut dev, *block, 0)?;
        let other = differences(alloc, (dev, root), &[*row], NEXT, Telling::Touched)?;
        none_differ(&rt, other.as_str());
    }
    Ok(())
}

#[test]
fn a_leaf_that_is_named_again_is_damage(rt: HostRuntime) -> Result<(), Fail> {
    let alloc = rt.alloc();
    for (other, rows) in [(23, TWICE.as_slice()), (24, BESIDE.as_slice())] {
        let tree = named_again(alloc, other)?;
        let other = differences(alloc, tree, rows, NEXT, Telling::Touched)?;
        none_differ(&rt, other.as_str());
    }
    Ok(())
}

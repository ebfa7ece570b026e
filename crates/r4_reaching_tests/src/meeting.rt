//! Which cells are met, and what commands reach on a new volume: its twig is block 22, and its leaf
//! block 23.

use crate::rows::none_differ;
use r4_base::NodeId;
use r4_cell::Root;
use r4_mkfs::mkfs;
use r4_outside::MemoryDevice;
use r4_reach_testing::{Row, Telling, differences};
use r4_tree_testing::{BLOCKS, Bodies, NEXT, volume};
use std::alloc::Global;
use std::test::Fail;

// A new volume.
fn new_volume(alloc: Global) -> Result<(MemoryDevice, Root), Fail> {
    let mut dev = MemoryDevice::plain(alloc, BLOCKS)?;
    if mkfs(alloc, &mut dev, b"").is_err() {
        return Err(Fail::from("no volume was made"));
    }
    let id = NodeId(22);
    Ok((dev, Root { id, height: 2 }))
}

static NEW: [Row; 8] = [
    ("chmod / 700", "writes 23, 1 new"),
    ("create /n", "writes 23, 1 new"),
    ("mkdir /n", "writes 23, 1 new"),
    ("stat /", "reads 23"),
    ("names /", "reads 23"),
    ("stat /n", "reads 23"),
    ("unlink /", ""),
    ("commit", ""),
];

// The leaves or blocks, and then level by level what stands over them. Where nothing is asked for
// it is the way to the least key.
static MET: [Row; 8] = [
    ("commit", "met 23 22 31 33"),
    ("create /", "met 23 22 31 33"),
    ("stat /f", "met 23 24 22 31 33"),
    ("read /f 0 9", "met 23 24 25 22 31 33"),
    ("write /f 9000 x", "met 23 24 27 22 30 31 32 33"),
    ("create /d/n", "met 23 24 29 22 30 31 32 33"),
    ("unlink /f", "met 23 24 25 26 27 22 30 31 32 33"),
    ("write /f 1073741824 x", "met 23 24 22 31 33"),
];

static MET_OF_EXTENTS: [Row; 4] = [
    ("read /f 0 9", "met 40 23 24 22 31 33"),
    ("read /f 4096 9", "met 23 24 22 31 33"),
    ("read /f 4000 5000", "met 40 41 23 24 22 31 33"),
    ("unlink /g", "met 23 24 27 22 30 31 32 33"),
];

#[test]
fn a_new_volume_has_one_leaf(rt: HostRuntime) -> Result<(), Fail> {
    let alloc = rt.alloc();
    let tree = new_volume(alloc)?;
    let other = differences(alloc, tree, &NEW, NEXT, Telling::Touched)?;
    none_differ(&rt, other.as_str());
    Ok(())
}

#[test]
fn ways_are_met(rt: HostRuntime) -> Result<(), Fail> {
    let alloc = rt.alloc();
    let tree = volume(alloc, Bodies::Tails, 4)?;
    let other = differences(alloc, tree, &MET, NEXT, Telling::Met)?;
    none_differ(&rt, other.as_str());
    Ok(())
}

#[test]
fn blocks_are_met_where_they_are_read(rt: HostRuntime) -> Result<(), Fail> {
    let alloc = rt.alloc();
    let tree = volume(alloc, Bodies::Extents, 4)?;
    let other = differences(alloc, tree, &MET_OF_EXTENTS, NEXT, Telling::Met)?;
    none_differ(&rt, other.as_str());
    Ok(())
}

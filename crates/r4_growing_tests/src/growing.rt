//! What commands reach in trees whose nodes are full. A cell that needs up to 1,024 bytes too many
//! asks for two pointers: so a new cell comes in the place of each that is written, two more for
//! each, and a new root.

use crate::reaching::all_reach;
use r4_reach_testing::Row;
use r4_tree_testing::full;
use std::test::Fail;

// Commands that put nothing more into the leaf. Each node of the tree but the leaf names block 40
// many times, which is no node: no command asks for a key below it, so it is not damaged.
static SAME: [Row; 30] = [
    ("rename /a /c", "writes 23, 1 new"),
    ("write /a 0 x", "writes 23, 1 new"),
    ("write /a 3775 x", "writes 23, 1 new"),
    ("fill /a 9 99 7", "writes 23, 1 new"),
    ("truncate /a 9", "writes 23, 1 new"),
    ("unlink /a", "writes 23, 1 new"),
    ("chmod / 700", "writes 23, 1 new"),
    ("chown /a 1 2", "writes 23, 1 new"),
    ("times /a 1 2 3", "writes 23, 1 new"),
    ("stat /", "reads 23"),
    ("stat /a", "reads 23"),
    ("names /", "reads 23"),
    ("read /a 0 3776", "reads 23"),
    ("write /a 0 ", "reads 23"),
    ("truncate /a 16384", "reads 23"),
    ("rename /a /a", "reads 23"),
    // Refused.
    ("create /a", "reads 23"),
    ("mkdir /a/b", "reads 23"),
    ("link / /b", "reads 23"),
    ("link /a /a", "reads 23"),
    ("rmdir /a", "reads 23"),
    ("unlink /b", "reads 23"),
    ("rename /b /c", "reads 23"),
    ("names /a", "reads 23"),
    ("stat /b", "reads 23"),
    ("write /a 1073741824 x", "reads 23"),
    ("unlink /", ""),
    ("rmdir /", ""),
    ("rename / /b", ""),
    ("commit", ""),
];

// Further bytes would make an extent.
static TURNING: [Row; 3] = [
    ("write /a 16384 x", "extent"),
    ("fill /a 16383 2 7", "extent"),
    ("truncate /a 16385", "extent"),
];

// Commands that put an entry, or an object with its entry, into the leaf, by the height.
static LOW: [Row; 3] = [
    ("create /b", "writes 23 24, root pair, 7 new"),
    ("mkdir /b", "writes 23 24, root pair, 7 new"),
    ("link /a /b", "writes 23 24, root pair, 7 new"),
];

static MIDDLE: [Row; 3] = [
    ("create /b", "writes 23 24 25, root pair, 10 new"),
    ("mkdir /b", "writes 23 24 25, root pair, 10 new"),
    ("link /a /b", "writes 23 24 25, root pair, 10 new"),
];

static HIGH: [Row; 3] = [
    ("create /b", "writes 23 24 25 26, root pair, 13 new"),
    ("mkdir /b", "writes 23 24 25 26, root pair, 13 new"),
    ("link /a /b", "writes 23 24 25 26, root pair, 13 new"),
];

static TALL: [Row; 3] = [
    (
        "create /b",
        "writes 23 24 25 26 27 28 29 30, root pair, 25 new",
    ),
    (
        "mkdir /b",
        "writes 23 24 25 26 27 28 29 30, root pair, 25 new",
    ),
    (
        "link /a /b",
        "writes 23 24 25 26 27 28 29 30, root pair, 25 new",
    ),
];

#[test]
fn full_nodes_ask_up_to_the_root_pair(rt: HostRuntime) -> Result<(), Fail> {
    let alloc = rt.alloc();
    for (levels, rows) in [(1, &LOW), (2, &MIDDLE), (3, &HIGH), (7, &TALL)] {
        all_reach(&rt, alloc, full(alloc, levels)?, rows.as_slice())?;
    }
    Ok(())
}

#[test]
fn what_adds_nothing_asks_for_nothing(rt: HostRuntime) -> Result<(), Fail> {
    let alloc = rt.alloc();
    for levels in [1, 2, 3, 7] {
        all_reach(&rt, alloc, full(alloc, levels)?, &SAME)?;
    }
    Ok(())
}

#[test]
fn further_bytes_touch_an_extent(rt: HostRuntime) -> Result<(), Fail> {
    let alloc = rt.alloc();
    for levels in [1, 2, 3, 7] {
        all_reach(&rt, alloc, full(alloc, levels)?, &TURNING)?;
    }
    Ok(())
}

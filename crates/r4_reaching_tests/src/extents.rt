//! What commands reach where `/f` and `/h` stand in extents. Those that touch an extent have no
//! reach yet.

use crate::rows::all_reach;
use r4_reach_testing::Row;
use r4_tree_testing::{Bodies, NEXT};
use std::test::Fail;

// Bytes are read: of a block, of a hole, of blocks beside it. The twig says where they are; at
// height 2 it is twig 30.
static LOW: [Row; 3] = [
    ("read /f 0 9", "reads 40 23 24 30"),
    ("read /f 4096 4096", "reads 23 24 30"),
    ("read /f 4000 5000", "reads 40 41 23 24 30"),
];

// The same at the heights 3 and 4.
static HIGH: [Row; 3] = [
    ("read /f 0 9", "reads 40 23 24 22"),
    ("read /f 4096 4096", "reads 23 24 22"),
    ("read /f 4000 5000", "reads 40 41 23 24 22"),
];

static ROWS: [Row; 39] = [
    ("read /f 9000 1", "reads 23 24"),
    ("read /h 0 4096", "reads 42 23 24 30"),
    ("read /g 0 100", "reads 23 24 27"),
    // Bytes of an extent are set or cut off, in a block, in a hole, and behind the end.
    ("write /f 0 x", "extent"),
    ("write /f 5000 x", "extent"),
    ("write /f 9000 x", "extent"),
    ("fill /h 3000 10 7", "extent"),
    ("truncate /f 0", "extent"),
    ("truncate /f 9001", "extent"),
    ("truncate /h 0", "extent"),
    // Tails become an extent.
    ("write /g 16384 x", "extent"),
    ("truncate /g 1048576", "extent"),
    // The keys of an empty file lie behind another file's extent, in its range.
    ("write /i 0 x", "extent"),
    ("truncate /i 5", "extent"),
    // A file goes with its extent.
    ("unlink /f", "extent"),
    ("rename /g /f", "extent"),
    // No byte is changed: the reach is there.
    ("write /f 0 ", "reads 23 24"),
    ("write /f 1073741824 x", "reads 23 24"),
    ("fill /h 0 0 7", "reads 23 24"),
    ("truncate /h 3000", "reads 23 24"),
    ("truncate /f 1073741825", "reads 23 24"),
    ("unlink /i", "writes 23 24, 2 new"),
    ("unlink /h", "writes 23 24, 2 new"),
    ("rename /f /n", "reads 24, writes 23, 1 new"),
    ("rename /f /h", "writes 23 24, 2 new"),
    ("link /f /n", "writes 23 24, 2 new"),
    ("chmod /f 600", "reads 23, writes 24, 1 new"),
    ("chown /h 1 2", "reads 23, writes 24, 1 new"),
    ("times /f 1 2 3", "reads 23, writes 24, 1 new"),
    ("stat /f", "reads 23 24"),
    ("names /", "reads 23"),
    // Other files are in leaves, also behind and between the extents.
    ("write /g 0 x", "reads 23 24, writes 27, 1 new"),
    ("fill /g 50 100 7", "reads 23, writes 24 27, 2 new"),
    ("rename /f /g", "writes 23 24 27, 3 new"),
    ("unlink /g", "writes 23 24 27, 3 new"),
    ("create /n", "writes 23 24, 2 new"),
    ("create /d/n", "reads 23, writes 24 29 30, 5 new"),
    ("write /d/x 3858 y", "reads 23 24, writes 29 30, 4 new"),
    ("rmdir /e", "reads 29, writes 23 24, 2 new"),
];

#[test]
fn the_twig_of_an_extent_is_read(rt: HostRuntime) -> Result<(), Fail> {
    all_reach(&rt, rt.alloc(), Bodies::Extents, &[2], &LOW, NEXT)?;
    all_reach(&rt, rt.alloc(), Bodies::Extents, &[3, 4], &HIGH, NEXT)
}

#[test]
fn extents_are_read_and_not_touched(rt: HostRuntime) -> Result<(), Fail> {
    all_reach(&rt, rt.alloc(), Bodies::Extents, &[2, 3, 4], &ROWS, NEXT)
}

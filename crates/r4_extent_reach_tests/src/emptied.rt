//! What commands reach where `/f` was cut to 0, and borders of leaves are left where it stood.

use crate::rows::reach_in;
use crate::trees::{emptied_extents, emptied_tails, emptied_twig};
use r4_reach_testing::Row;
use std::test::Fail;

// The leaves 25 and 26 go with the blocks that come, and leaf 27 begins behind them.
static TAILS_LOW: [Row; 4] = [
    (
        "truncate /f 1048576",
        "reads 23, writes 24 25 26 27 30, 5 new",
    ),
    // one block has a byte
    ("write /f 20000 x", "reads 23, writes 24 25 26 27 30, 6 new"),
    // a body of up to 16,384 bytes comes back to leaves, each of which has room for its own
    ("write /f 100 x", "reads 23, writes 24 25, 2 new"),
    ("write /f 5000 x", "reads 23, writes 24 25 26, 3 new"),
];

// The border between the twigs 22 and 30 lies within the blocks that come.
static TAILS_ACROSS: [Row; 3] = [
    (
        "truncate /f 1048576",
        "reads 23, writes 24 25 26 27 22 30 31, 7 new",
    ),
    (
        "write /f 20000 x",
        "reads 23, writes 24 25 26 27 22 30 31, 8 new",
    ),
    ("write /f 5000 x", "reads 23, writes 24 25 26, 3 new"),
];

// So does that between the nodes above them.
static TAILS_HIGH: [Row; 2] = [
    (
        "truncate /f 1048576",
        "reads 23, writes 24 25 26 27 22 30 31 32 33, 9 new",
    ),
    ("write /f 100 x", "reads 23, writes 24 25, 2 new"),
];

// Leaf 24 has nothing behind the blocks that come, so it is not cut in two.
static EXTENTS_LOW: [Row; 3] = [
    ("truncate /f 1048576", "reads 23, writes 24 30, 2 new"),
    ("write /f 20000 x", "reads 23, writes 24 30, 3 new"),
    // 574 bytes of stat data and 4,039 of a tail are 545 too many
    ("write /f 4000 x", "reads 23, writes 24 30, 4 new"),
];

static EXTENTS_HIGH: [Row; 3] = [
    ("truncate /f 1048576", "reads 23, writes 24 22, 2 new"),
    ("write /f 20000 x", "reads 23, writes 24 22, 3 new"),
    ("write /f 4000 x", "reads 23, writes 24 22, 4 new"),
];

// Leaf 25 begins where the blocks do, and goes; the border of twig 30 stays.
static TWIG: [Row; 3] = [
    ("truncate /f 1048576", "reads 23, writes 24 25 30, 3 new"),
    ("write /f 20000 x", "reads 23, writes 24 25 30, 4 new"),
    ("write /f 4000 x", "reads 23, writes 24 25, 2 new"),
];

#[test]
fn bodies_come_back_to_their_leaves(rt: HostRuntime) -> Result<(), Fail> {
    let alloc = rt.alloc();
    reach_in(&rt, alloc, emptied_tails(alloc, 2)?, &TAILS_LOW)?;
    reach_in(&rt, alloc, emptied_tails(alloc, 3)?, &TAILS_ACROSS)?;
    reach_in(&rt, alloc, emptied_tails(alloc, 4)?, &TAILS_HIGH)
}

#[test]
fn bodies_come_back_to_what_took_up_their_blocks(rt: HostRuntime) -> Result<(), Fail> {
    let alloc = rt.alloc();
    reach_in(&rt, alloc, emptied_extents(alloc, 2)?, &EXTENTS_LOW)?;
    reach_in(&rt, alloc, emptied_extents(alloc, 3)?, &EXTENTS_HIGH)?;
    reach_in(&rt, alloc, emptied_extents(alloc, 4)?, &EXTENTS_HIGH)?;
    reach_in(&rt, alloc, emptied_twig(alloc)?, &TWIG)
}

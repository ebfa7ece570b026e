//! What commands reach that change a body in tails below nine twigs.

use crate::rows::reach_in;
use crate::trees::nine_twigs;
use r4_reach_testing::Row;
use std::test::Fail;

// The twigs 53 to 59 go with their leaves.
static LOW: [Row; 5] = [
    (
        "truncate /f 1048576",
        "reads 23, writes 24 34 35 36 37 38 39 40 41 42 43 44 45 46 47 48 49 50 51 \
         52 53 54 55 56 57 58 59 60 61, 33 new",
    ),
    // the byte behind the last that tails may have
    (
        "write /f 16384 x",
        "reads 23, writes 24 34 35 36 37 38 39 40 41 42 43 44 45 46 47 48 49 50 51 \
         52 53 54 55 56 57 58 59 60 61, 34 new",
    ),
    ("write /f 16383 x", "reads 23 24, writes 51, 1 new"),
    // bytes go of their leaves, which stay
    (
        "truncate /f 0",
        "reads 23, writes 24 34 35 36 37 38 39 40 41 42 43 44 45 46 47 48 49 50 51, 19 new",
    ),
    (
        "unlink /f",
        "writes 23 24 34 35 36 37 38 39 40 41 42 43 44 45 46 47 48 49 50 51, 20 new",
    ),
];

// Node 31 goes with its three.
static HIGH: [Row; 2] = [
    (
        "truncate /f 1048576",
        "reads 23, writes 24 34 35 36 37 38 39 40 41 42 43 44 45 46 47 48 49 50 51 \
         52 53 54 55 56 57 58 59 60 30 31 32 33, 36 new",
    ),
    (
        "write /f 16384 x",
        "reads 23, writes 24 34 35 36 37 38 39 40 41 42 43 44 45 46 47 48 49 50 51 \
         52 53 54 55 56 57 58 59 60 30 31 32 33, 37 new",
    ),
];

#[test]
fn bodies_turn_across_nine_twigs(rt: HostRuntime) -> Result<(), Fail> {
    let alloc = rt.alloc();
    reach_in(&rt, alloc, nine_twigs(alloc, 3)?, &LOW)?;
    reach_in(&rt, alloc, nine_twigs(alloc, 4)?, &HIGH)
}

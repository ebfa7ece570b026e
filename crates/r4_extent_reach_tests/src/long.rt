//! What commands reach on a body of 65,536 bytes, which is one run of sixteen blocks.

use crate::rows::reach_in;
use crate::trees::sixteen_blocks;
use r4_reach_testing::Row;
use std::test::Fail;

static ROWS: [Row; 5] = [
    (
        "read /f 0 65536",
        "reads 44 45 46 47 48 49 50 51 52 53 54 55 56 57 58 59 23 24 30",
    ),
    ("read /f 8191 2", "reads 45 46 23 24 30"),
    ("fill /f 4000 200 7", "reads 23 24 30, writes 44 45, 2 new"),
    // a block that keeps no byte is read all the same: it is changed, and not made anew
    (
        "fill /f 0 65536 7",
        "reads 23 24 30, writes 44 45 46 47 48 49 50 51 52 53 54 55 56 57 58 59, 16 new",
    ),
    // of the block that stays the bytes behind the end go
    (
        "truncate /f 4097",
        "reads 23, writes 45 46 47 48 49 50 51 52 53 54 55 56 57 58 59 24 30, 17 new",
    ),
];

#[test]
fn long_bodies_are_read_by_their_blocks(rt: HostRuntime) -> Result<(), Fail> {
    let alloc = rt.alloc();
    reach_in(&rt, alloc, sixteen_blocks(alloc)?, &ROWS)
}

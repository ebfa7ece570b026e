//! What commands reach that change bodies in extents: `/f` is two blocks with a hole between them, `/h` one block, `/g`
//! stands in a leaf between the two, and the keys of the empty `/i` lie behind the extent of `/h`, in its range.

use crate::rows::all_reach;
use r4_reach_testing::Row;
use r4_tree_testing::Bodies;
use std::test::Fail;

// At height 2 the extent of `/f` stands in twig 30, the root.
static LOW: [Row; 6] = [
    // a block is written anew, and a hole gets one
    ("write /f 0 x", "reads 23 24 30, writes 40, 1 new"),
    ("write /f 5000 x", "reads 23 24, writes 30, 2 new"),
    // a longer file: its last byte is in the last block
    ("write /f 9000 x", "reads 23 30, writes 41 24, 2 new"),
    ("truncate /f 9001", "reads 23 30, writes 41 24, 2 new"),
    // blocks go, and leaf 24, directly left of them, takes up their range
    ("truncate /f 0", "reads 23, writes 40 41 24 30, 4 new"),
    ("unlink /f", "writes 40 41 23 24 30, 5 new"),
];

// Above that it stands in twig 22.
static HIGH: [Row; 6] = [
    ("write /f 0 x", "reads 23 24 22, writes 40, 1 new"),
    ("write /f 5000 x", "reads 23 24, writes 22, 2 new"),
    ("write /f 9000 x", "reads 23 22, writes 41 24, 2 new"),
    ("truncate /f 9001", "reads 23 22, writes 41 24, 2 new"),
    ("truncate /f 0", "reads 23, writes 40 41 24 22, 4 new"),
    ("unlink /f", "writes 40 41 23 24 22, 5 new"),
];

static ROWS: [Row; 7] = [
    ("fill /h 3000 10 7", "reads 23 30, writes 42 24, 2 new"),
    // leaf 27 is directly left of the block that goes
    ("truncate /h 0", "reads 23, writes 42 24 27 30, 4 new"),
    // a tail becomes an extent of a block and a hole, and its leaf goes
    ("truncate /g 1048576", "reads 23, writes 24 27 30, 4 new"),
    // a byte comes into the range of another file's extent, in a new leaf
    ("write /i 0 x", "reads 23, writes 24 30, 3 new"),
    // no extent is changed
    ("write /g 0 x", "reads 23 24, writes 27, 1 new"),
    ("read /h 0 4096", "reads 42 23 24 30"),
    ("create /n", "writes 23 24, 2 new"),
];

// The bytes of `/f` stand in the leaves 25 and 26 and in leaf 27, before `/g`. At height 2 one twig is over all of them.
static TURNS_LOW: [Row; 1] = [(
    "truncate /f 1048576",
    "reads 23, writes 24 25 26 27 30, 8 new",
)];

// At height 3 leaf 27 is below another twig: the border between the two, which lies within the second block, moves.
static TURNS_ACROSS: [Row; 1] = [(
    "truncate /f 1048576",
    "reads 23, writes 24 25 26 27 22 30 31, 10 new",
)];

// At height 4 it is a border of the nodes above the twigs, too.
static TURNS_HIGH: [Row; 1] = [(
    "truncate /f 1048576",
    "reads 23, writes 24 25 26 27 22 30 31 32 33, 12 new",
)];

#[test]
fn bodies_turn_across_twigs(rt: HostRuntime) -> Result<(), Fail> {
    all_reach(&rt, rt.alloc(), Bodies::Tails, &[2], &TURNS_LOW)?;
    all_reach(&rt, rt.alloc(), Bodies::Tails, &[3], &TURNS_ACROSS)?;
    all_reach(&rt, rt.alloc(), Bodies::Tails, &[4], &TURNS_HIGH)
}

#[test]
fn blocks_come_go_and_fill_holes(rt: HostRuntime) -> Result<(), Fail> {
    all_reach(&rt, rt.alloc(), Bodies::Extents, &[2], &LOW)?;
    all_reach(&rt, rt.alloc(), Bodies::Extents, &[3, 4], &HIGH)
}

#[test]
fn bodies_turn_and_come_among_extents(rt: HostRuntime) -> Result<(), Fail> {
    all_reach(&rt, rt.alloc(), Bodies::Extents, &[2, 3, 4], &ROWS)
}

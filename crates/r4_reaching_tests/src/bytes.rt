//! What commands reach that are of one object, bodies in tails.

use crate::rows::all_reach;
use r4_reach_testing::Row;
use r4_tree_testing::{Bodies, NEXT};
use std::test::Fail;

// Bytes are set or cut off.
static WRITING: [Row; 43] = [
    // In one leaf, in two; where the file becomes longer, its last byte is read.
    ("write /f 0 x", "reads 23 24, writes 25, 1 new"),
    ("write /f 3999 xy", "reads 23 24, writes 25 26, 2 new"),
    ("write /f 8999 x", "reads 23 24, writes 27, 1 new"),
    ("write /f 9000 x", "reads 23, writes 24 27, 2 new"),
    ("write /f 9100 x", "reads 23, writes 24 27, 2 new"),
    // An empty file has no last byte; its bytes come behind those of `/h`.
    ("write /i 0 x", "reads 23, writes 24 28, 2 new"),
    ("write /i 16383 x", "reads 23, writes 24 28 30, 20 new"),
    ("write /i 16384 x", "extent"),
    ("truncate /i 5", "reads 23, writes 24 28, 2 new"),
    ("truncate /i 0", "reads 23 24"),
    // In a full leaf: no byte more, and one.
    ("write /d/x 3857 y", "reads 23 24, writes 29, 1 new"),
    ("write /d/x 3858 y", "reads 23 24, writes 29 30, 4 new"),
    ("write /d/x 3858 ", "reads 23 24 29"),
    // `name`, `absent`, `notdir`, `isdir`, `toobig`.
    ("write /.. 0 x", ""),
    ("write /q 0 x", "reads 23"),
    ("write /z 0 x", "reads 23 24"),
    ("write /f/x 0 x", "reads 23 24"),
    ("write /d 0 x", "reads 23 24"),
    ("write /f 1073741824 x", "reads 23 24"),
    // As much as fits, a byte more, and as much as tails may have; then the body is an extent.
    ("fill /g 50 100 7", "reads 23, writes 24 27, 2 new"),
    ("fill /h 3000 1030 7", "reads 23, writes 24 28, 2 new"),
    ("fill /h 3000 1031 7", "reads 23, writes 24 28 30, 5 new"),
    ("fill /h 3000 13384 7", "reads 23, writes 24 28 30, 17 new"),
    ("fill /h 3000 13385 7", "extent"),
    ("fill /h 3000 0 7", "reads 23 24"),
    ("fill /. 0 1 7", ""),
    ("fill /q 0 1 7", "reads 23"),
    ("fill /f/x 0 1 7", "reads 23 24"),
    ("fill / 0 1 7", "reads 23"),
    ("fill /g 1073741824 1 7", "reads 23 24"),
    ("truncate /h 0", "reads 23, writes 24 28, 2 new"),
    ("truncate /h 3000", "reads 23 24"),
    ("truncate /h 3001", "reads 23, writes 24 28, 2 new"),
    ("truncate /h 16384", "reads 23, writes 24 28 30, 17 new"),
    ("truncate /h 16385", "extent"),
    ("truncate /f 4096", "reads 23, writes 24 26 27, 3 new"),
    ("truncate /f 7900", "reads 23, writes 24 27, 2 new"),
    ("truncate /h/ 0", ""),
    ("truncate /q 0", "reads 23"),
    ("truncate /z 0", "reads 23 24"),
    ("truncate /f/x 0", "reads 23 24"),
    ("truncate /e 0", "reads 23 24"),
    ("truncate /f 1073741825", "reads 23 24"),
];

// Bytes are read.
static READING: [Row; 13] = [
    ("read /f 0 9", "reads 23 24 25"),
    ("read /f 3999 2", "reads 23 24 25 26"),
    ("read /f 4000 5000", "reads 23 24 26 27"),
    ("read /f 9000 1", "reads 23 24"),
    ("read /f 0 0", "reads 23 24"),
    ("read /i 0 9", "reads 23 24"),
    ("read /g 0 100", "reads 23 24 27"),
    ("read /d/x 3857 9", "reads 23 24 29"),
    // `name`, `absent`, `notdir`, `isdir`.
    ("read /.. 0 9", ""),
    ("read /q 0 9", "reads 23"),
    ("read /z 0 9", "reads 23 24"),
    ("read /f/x 0 9", "reads 23 24"),
    ("read /d 0 9", "reads 23 24"),
];

// Attributes are read or set, and transactions begin and end.
static ATTRIBUTES: [Row; 22] = [
    ("stat /", "reads 23"),
    ("stat /d/x", "reads 23 24 29"),
    ("stat /.", ""),
    ("stat /q", "reads 23"),
    ("stat /z", "reads 23 24"),
    ("stat /d/x/y", "reads 23 24 29"),
    ("chmod /d 700", "reads 23, writes 24, 1 new"),
    ("chmod / 0", "writes 23, 1 new"),
    ("chmod /. 0", ""),
    ("chmod /q 0", "reads 23"),
    ("chmod /f/x 0", "reads 23 24"),
    ("chown /d/x 1 2", "reads 23 24, writes 29, 1 new"),
    ("chown /.. 1 2", ""),
    ("chown /e/q 1 2", "reads 23 24 29"),
    ("chown /f/x 1 2", "reads 23 24"),
    ("times / 1 2 3", "writes 23, 1 new"),
    ("times // 1 2 3", ""),
    ("times /q 1 2 3", "reads 23"),
    ("times /f/x 1 2 3", "reads 23 24"),
    ("begin", ""),
    ("begin\nend", ""),
    ("commit", ""),
];

#[test]
fn writing_reaches_this(rt: HostRuntime) -> Result<(), Fail> {
    all_reach(&rt, rt.alloc(), Bodies::Tails, &[2, 3, 4], &WRITING, NEXT)
}

#[test]
fn reading_reaches_this(rt: HostRuntime) -> Result<(), Fail> {
    all_reach(&rt, rt.alloc(), Bodies::Tails, &[2, 3, 4], &READING, NEXT)
}

#[test]
fn attributes_reach_this(rt: HostRuntime) -> Result<(), Fail> {
    all_reach(
        &rt,
        rt.alloc(),
        Bodies::Tails,
        &[2, 3, 4],
        &ATTRIBUTES,
        NEXT,
    )
}

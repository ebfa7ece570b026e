//! What commands reach that name two paths, bodies in tails.

use crate::rows::all_reach;
use r4_reach_testing::Row;
use r4_tree_testing::{Bodies, NEXT};
use std::test::Fail;

// Further names.
static LINKS: [Row; 17] = [
    ("link /f /n", "writes 23 24, 2 new"),
    ("link /d/x /n", "reads 24, writes 23 29, 2 new"),
    ("link /f /d/n", "reads 23, writes 24 29 30, 5 new"),
    // `name` in either path.
    ("link /../f /n", ""),
    ("link /f /..", ""),
    // The way to the first: `absent`, `notdir`; then `isdir`.
    ("link /q /n", "reads 23"),
    ("link /z /n", "reads 23 24"),
    ("link /f/x /n", "reads 23 24"),
    ("link /d /n", "reads 23 24"),
    ("link / /n", "reads 23"),
    // `exists` for `/`, the way to the parent, `notdir`, `exists`, `clash`.
    ("link /f /", "reads 23 24"),
    ("link /f /q/n", "reads 23 24"),
    ("link /f /g/x/n", "reads 23 24"),
    ("link /f /g/n", "reads 23 24"),
    ("link /f /g", "reads 23 24"),
    ("link /f /aaaaaaaaaaaaaaaxxxxxxxbl", "reads 23 24"),
    // `links`.
    ("link /h /n", "reads 23 24"),
];

// Other names. The stat data of what moves stay as they are.
static RENAMES: [Row; 29] = [
    ("rename /f /n", "reads 24, writes 23, 1 new"),
    ("rename /f /d/n", "writes 23 24 29 30, 6 new"),
    ("rename /d/x /n", "writes 23 24 29, 3 new"),
    ("rename /d /n", "reads 24, writes 23, 1 new"),
    ("rename /m /n", "reads 24, writes 23, 1 new"),
    // Onto a file, which goes with its bytes, and onto a link; a directory onto an empty one.
    ("rename /f /g", "writes 23 24 27, 3 new"),
    ("rename /d/x /g", "writes 23 24 27 29, 4 new"),
    ("rename /f /h", "writes 23 24, 2 new"),
    ("rename /d /e", "reads 29, writes 23 24, 2 new"),
    // `name` in either path, before `loop` for `/`.
    ("rename /./f /", ""),
    ("rename /f /..", ""),
    ("rename /d /", ""),
    ("rename / /n", ""),
    // The ways: `absent` and `notdir`; `notdir` for the parent.
    ("rename /q /n", "reads 23"),
    ("rename /z /n", "reads 23 24"),
    ("rename /f/x /n", "reads 23 24"),
    ("rename /f /q/n", "reads 23 24"),
    ("rename /f /g/x/n", "reads 23 24"),
    ("rename /f /g/n", "reads 23 24"),
    // `loop`, at the end of the way and before it.
    ("rename /d /d/n", "reads 23 24"),
    ("rename /d /d/x/n", "reads 23 24 29"),
    // Two names of one object: nothing is done.
    ("rename /h /aaaaaaaaaaaaaaaxxxxxxxca", "reads 23 24"),
    // `clash`; `absent` for an object that is not there, `notdir`, `isdir`, `notempty`.
    ("rename /f /aaaaaaaaaaaaaaaxxxxxxxbl", "reads 23 24"),
    ("rename /f /z", "reads 23 24"),
    ("rename /e /f", "reads 23 24"),
    ("rename /f /e", "reads 23 24"),
    ("rename /e /d", "reads 23 24 29"),
    // `links`, and none for a file.
    ("rename /e /m/n", "reads 23 24 29"),
    ("rename /f /m/n", "writes 23 24 29 30, 6 new"),
];

#[test]
fn links_reach_this(rt: HostRuntime) -> Result<(), Fail> {
    all_reach(&rt, rt.alloc(), Bodies::Tails, &[2, 3, 4], &LINKS, NEXT)
}

#[test]
fn renames_reach_this(rt: HostRuntime) -> Result<(), Fail> {
    all_reach(&rt, rt.alloc(), Bodies::Tails, &[2, 3, 4], &RENAMES, NEXT)
}

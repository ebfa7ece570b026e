//! What commands reach in a file of 16,384 bytes that stand in five leaves, below a twig with room.

use crate::reaching::all_reach;
use r4_reach_testing::Row;
use r4_tree_testing::with_room;
use std::test::Fail;

static ROWS: [Row; 12] = [
    // Bytes of two leaves share no cell that is written, and neither reads the last byte.
    ("write /a 16383 x", "reads 23, writes 27, 1 new"),
    ("write /a 8192 y", "reads 23, writes 25, 1 new"),
    ("read /a 7805 2", "reads 23 24 25"),
    ("fill /a 0 16384 7", "writes 23 24 25 26 27, 5 new"),
    ("truncate /a 7806", "writes 23 25 26 27, 4 new"),
    ("unlink /a", "writes 23 24 25 26 27, 5 new"),
    // A file that grows past its leaves becomes an extent.
    ("write /a 16384 x", "extent"),
    // The full leaf asks its twig, which has room; an entry in the place of another needs none.
    ("create /b", "writes 23 22, 4 new"),
    ("mkdir /b", "writes 23 22, 4 new"),
    ("link /a /b", "writes 23 22, 4 new"),
    ("rename /a /c", "writes 23, 1 new"),
    // A longer name needs a byte of its own for each of its bytes.
    ("rename /a /aaaaaaaaaaaaaaaxxxxxxxca", "writes 23 22, 4 new"),
];

#[test]
fn bytes_in_leaves_are_reached_leaf_by_leaf(rt: HostRuntime) -> Result<(), Fail> {
    let alloc = rt.alloc();
    for levels in 0..3 {
        all_reach(&rt, alloc, with_room(alloc, levels)?, &ROWS)?;
    }
    Ok(())
}

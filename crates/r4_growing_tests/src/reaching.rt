//! Rows in one tree.

use r4_cell::Root;
use r4_outside::MemoryDevice;
use r4_reach_testing::{Row, Telling, differences};
use r4_tree_testing::NEXT;
use std::alloc::Global;
use std::process::Abort;
use std::test::Fail;

/// Ends the test unless the command of each row reaches just this in a tree, and no block is read
/// twice for it. So no block is damaged.
pub fn all_reach<X: Abort>(
    rt: &X,
    alloc: Global,
    tree: (MemoryDevice, Root),
    rows: &[Row],
) -> Result<(), Fail> {
    let other = differences(alloc, tree, rows, NEXT, Telling::Touched)?;
    none_differ(rt, other.as_str());
    Ok(())
}

// Ends the test unless there are no differences.
fn none_differ<X: Abort>(rt: &X, differences: &str) {
    assert_eq!(rt; differences, "");
}

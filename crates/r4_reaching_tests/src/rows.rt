//! Rows in trees of the heights 2, 3 and 4.

use r4_base::Oid;
use r4_reach_testing::{Row, Telling, differences};
use r4_tree_testing::{Bodies, volume};
use std::alloc::Global;
use std::process::Abort;
use std::test::Fail;

/// Ends the test unless the command of each row reaches just this in trees of these heights, and no
/// block is read twice for it. An object that is made gets a number.
pub fn all_reach<X: Abort>(
    rt: &X,
    alloc: Global,
    bodies: Bodies,
    heights: &[u8],
    rows: &[Row],
    made: Oid,
) -> Result<(), Fail> {
    for height in heights {
        let tree = volume(alloc, bodies, *height)?;
        let other = differences(alloc, tree, rows, made, Telling::Touched)?;
        none_differ(rt, other.as_str());
    }
    Ok(())
}

/// Ends the test unless there are no differences.
pub fn none_differ<X: Abort>(rt: &X, differences: &str) {
    assert_eq!(rt; differences, "");
}

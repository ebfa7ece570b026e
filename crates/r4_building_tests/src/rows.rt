//! Rows in trees of the heights 2, 3 and 4.

use r4_change_testing::{Row, Tree, others};
use r4_tree_testing::{Bodies, NEXT};
use std::alloc::Global;
use std::process::Abort;
use std::test::Fail;

/// Ends the test unless just this becomes of the command of each row in volumes of the heights 2, 3
/// and 4.
pub fn all_become<X: Abort>(
    rt: &X,
    alloc: Global,
    bodies: Bodies,
    rows: &[Row],
) -> Result<(), Fail> {
    for height in 2..5 {
        let others = others(alloc, Tree::Volume(bodies, height), rows, NEXT)?;
        none_differ(rt, others.as_str());
    }
    Ok(())
}

/// Ends the test unless nothing differs.
pub fn none_differ<X: Abort>(rt: &X, others: &str) {
    assert_eq!(rt; others, "");
}

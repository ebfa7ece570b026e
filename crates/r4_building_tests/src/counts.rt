//! How many values stand in volumes after commands, whether a path leads there or not.

use crate::rows::none_differ;
use r4_change_testing::{Told, Tree, other_counts};
use r4_tree_testing::{Bodies, NEXT};
use std::test::Fail;

static COUNTS: [Told; 12] = [
    ("commit", "9 attributes, 10 entries, 15958 bytes"),
    ("create /n", "10 attributes, 11 entries, 15958 bytes"),
    ("mkdir /e/n", "10 attributes, 11 entries, 15958 bytes"),
    ("link /f /n", "9 attributes, 11 entries, 15958 bytes"),
    ("unlink /f", "8 attributes, 9 entries, 6958 bytes"),
    ("unlink /h", "9 attributes, 9 entries, 15958 bytes"),
    ("rmdir /e", "8 attributes, 9 entries, 15958 bytes"),
    ("rename /f /g", "8 attributes, 9 entries, 15858 bytes"),
    ("rename /d /e", "8 attributes, 9 entries, 15958 bytes"),
    ("write /i 16383 x", "9 attributes, 10 entries, 32342 bytes"),
    ("truncate /f 4096", "9 attributes, 10 entries, 11054 bytes"),
    ("truncate /h 0", "9 attributes, 10 entries, 12958 bytes"),
];

#[test]
fn what_goes_stands_nowhere(rt: HostRuntime) -> Result<(), Fail> {
    let alloc = rt.alloc();
    for height in 2..5 {
        let tree = Tree::Volume(Bodies::Tails, height);
        let other = other_counts(alloc, tree, &COUNTS, NEXT)?;
        none_differ(&rt, other.as_str());
    }
    Ok(())
}

//! Commands one after another: each is built on what the ones before it left.

use crate::rows::none_differ;
use r4_change_testing::{Row, Tree, others_in_turn};
use r4_tree_testing::NEXT;
use std::test::Fail;

// The first leaf is full and is parted twice, so at last the bytes of `/a` stand in seven leaves;
// those of `/b` come into the last one, and the entries of `/c`.
static TURNS: [Row; 8] = [
    Row {
        command: "create /b",
        told: "ok, 2 old, 3 new, 1 born",
        lines: &[
            "- d 0755 2 0 0 1 /",
            "+ d 0755 2 0 0 2 /",
            "+ f 0644 1 0 0 0 /b",
        ],
    },
    Row {
        command: "write /b 0 hello",
        told: "ok, 2 old, 2 new",
        lines: &["- f 0644 1 0 0 0 /b", "+ f 0644 1 0 0 5 /b h*1 e*1 l*2 o*1"],
    },
    Row {
        command: "mkdir /c",
        told: "ok, 2 old, 3 new, 1 born",
        lines: &[
            "- d 0755 2 0 0 2 /",
            "+ d 0755 3 0 0 3 /",
            "+ d 0755 2 0 0 0 /c",
        ],
    },
    Row {
        command: "rename /b /c/d",
        told: "ok, 2 old, 2 new",
        lines: &[
            "- d 0755 3 0 0 3 /",
            "- f 0644 1 0 0 5 /b h*1 e*1 l*2 o*1",
            "- d 0755 2 0 0 0 /c",
            "+ d 0755 3 0 0 2 /",
            "+ d 0755 2 0 0 1 /c",
            "+ f 0644 1 0 0 5 /c/d h*1 e*1 l*2 o*1",
        ],
    },
    Row {
        command: "unlink /a",
        told: "ok, 7 old, 7 new, 1 gone",
        lines: &[
            "- d 0755 3 0 0 2 /",
            "- f 0644 1 0 0 16384 /a 1*3776 2*12608",
            "+ d 0755 3 0 0 1 /",
        ],
    },
    Row {
        command: "rmdir /c",
        told: "notempty",
        lines: &[],
    },
    Row {
        command: "unlink /c/d",
        told: "ok, 2 old, 2 new, 1 gone",
        lines: &[
            "- d 0755 2 0 0 1 /c",
            "- f 0644 1 0 0 5 /c/d h*1 e*1 l*2 o*1",
            "+ d 0755 2 0 0 0 /c",
        ],
    },
    Row {
        command: "rmdir /c",
        told: "ok, 1 old, 1 new, 1 gone",
        lines: &[
            "- d 0755 3 0 0 1 /",
            "- d 0755 2 0 0 0 /c",
            "+ d 0755 2 0 0 0 /",
        ],
    },
];

#[test]
fn commands_follow_each_other(rt: HostRuntime) -> Result<(), Fail> {
    for levels in 0..3 {
        let other = others_in_turn(rt.alloc(), Tree::WithRoom(levels), &TURNS, NEXT)?;
        none_differ(&rt, other.as_str());
    }
    Ok(())
}

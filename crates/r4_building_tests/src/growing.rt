//! What comes into a leaf with room, into a full leaf, and into one below full nodes.

use crate::rows::none_differ;
use r4_change_testing::{Row, Tree, others};
use r4_tree_testing::NEXT;
use std::test::Fail;

// A new volume: its leaf alone is new.
static NEW: [Row; 2] = [
    Row {
        command: "create /n",
        told: "ok, 1 old, 1 new, 1 born",
        lines: &[
            "- d 0755 2 0 0 0 /",
            "+ d 0755 2 0 0 1 /",
            "+ f 0644 1 0 0 0 /n",
        ],
    },
    Row {
        command: "mkdir /n",
        told: "ok, 1 old, 1 new, 1 born",
        lines: &[
            "- d 0755 2 0 0 0 /",
            "+ d 0755 3 0 0 1 /",
            "+ d 0755 2 0 0 0 /n",
        ],
    },
];

// A full leaf below a twig with room: two leaves come, and the twig anew. A longer name needs room
// too.
static ROOM: [Row; 3] = [
    Row {
        command: "create /b",
        told: "ok, 2 old, 3 new, 1 born",
        lines: &[
            "- d 0755 2 0 0 1 /",
            "+ d 0755 2 0 0 2 /",
            "+ f 0644 1 0 0 0 /b",
        ],
    },
    Row {
        command: "rename /a /aaaaaaaaaaaaaaaxxxxxxxca",
        told: "ok, 2 old, 3 new",
        lines: &[
            "- f 0644 1 0 0 16384 /a 1*3776 2*12608",
            "+ f 0644 1 0 0 16384 /aaaaaaaaaaaaaaaxxxxxxxca 1*3776 2*12608",
        ],
    },
    Row {
        command: "unlink /a",
        told: "ok, 5 old, 5 new, 1 gone",
        lines: &[
            "- d 0755 2 0 0 1 /",
            "- f 0644 1 0 0 16384 /a 1*3776 2*12608",
            "+ d 0755 2 0 0 0 /",
        ],
    },
];

// What comes into the full leaf below full nodes: a leaf and a node of each level more, and a root.
const FILE: [&str; 3] = [
    "- d 0755 2 0 0 1 /",
    "+ d 0755 2 0 0 2 /",
    "+ f 0644 1 0 0 0 /b",
];

const NAME: [&str; 5] = [
    "- d 0755 2 0 0 1 /",
    "- f 0644 1 0 0 16384 /a 1*3776",
    "+ d 0755 2 0 0 2 /",
    "+ f 0644 2 0 0 16384 /a 1*3776",
    "+ f 0644 2 0 0 16384 /b 1*3776",
];

// By the height.
static LOW: [Row; 2] = [
    Row {
        command: "create /b",
        told: "ok, 2 old, 5 new, 1 born, height 3",
        lines: &FILE,
    },
    Row {
        command: "link /a /b",
        told: "ok, 2 old, 5 new, height 3",
        lines: &NAME,
    },
];

static MIDDLE: [Row; 2] = [
    Row {
        command: "create /b",
        told: "ok, 3 old, 7 new, 1 born, height 4",
        lines: &FILE,
    },
    Row {
        command: "link /a /b",
        told: "ok, 3 old, 7 new, height 4",
        lines: &NAME,
    },
];

static HIGH: [Row; 2] = [
    Row {
        command: "create /b",
        told: "ok, 4 old, 9 new, 1 born, height 5",
        lines: &FILE,
    },
    Row {
        command: "link /a /b",
        told: "ok, 4 old, 9 new, height 5",
        lines: &NAME,
    },
];

#[test]
fn a_leaf_with_room_is_new_alone(rt: HostRuntime) -> Result<(), Fail> {
    let other = others(rt.alloc(), Tree::New, &NEW, NEXT)?;
    none_differ(&rt, other.as_str());
    Ok(())
}

#[test]
fn a_full_leaf_is_parted(rt: HostRuntime) -> Result<(), Fail> {
    for levels in 0..3 {
        let other = others(rt.alloc(), Tree::WithRoom(levels), &ROOM, NEXT)?;
        none_differ(&rt, other.as_str());
    }
    Ok(())
}

#[test]
fn full_nodes_are_parted_up_to_a_new_root(rt: HostRuntime) -> Result<(), Fail> {
    for (levels, rows) in [(1, &LOW), (2, &MIDDLE), (3, &HIGH)] {
        let other = others(rt.alloc(), Tree::Full(levels), rows.as_slice(), NEXT)?;
        none_differ(&rt, other.as_str());
    }
    Ok(())
}

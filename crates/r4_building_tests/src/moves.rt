//! What becomes of entries that move, and of volumes with extents that are not touched.

use crate::rows::all_become;
use r4_change_testing::Row;
use r4_tree_testing::Bodies;
use std::test::Fail;

// To a free name, into a full leaf, onto a file, onto a link, and onto an empty directory.
static RENAMES: [Row; 10] = [
    Row {
        command: "rename /f /n",
        told: "ok, 1 old, 1 new",
        lines: &[
            "- f 0644 1 0 0 9000 /f a*4096 .*4096 b*808",
            "+ f 0644 1 0 0 9000 /n a*4096 .*4096 b*808",
        ],
    },
    Row {
        command: "rename /d /n",
        told: "ok, 1 old, 1 new",
        lines: &[
            "- d 0755 2 0 0 1 /d",
            "- f 0644 1 0 0 3858 /d/x x*3858",
            "+ d 0755 2 0 0 1 /n",
            "+ f 0644 1 0 0 3858 /n/x x*3858",
        ],
    },
    Row {
        command: "rename /f /d/n",
        told: "ok, 4 old, 5 new",
        lines: &[
            "- d 0755 5 0 0 9 /",
            "- d 0755 2 0 0 1 /d",
            "- f 0644 1 0 0 9000 /f a*4096 .*4096 b*808",
            "+ d 0755 5 0 0 8 /",
            "+ d 0755 2 0 0 2 /d",
            "+ f 0644 1 0 0 9000 /d/n a*4096 .*4096 b*808",
        ],
    },
    Row {
        command: "rename /d/x /n",
        told: "ok, 3 old, 3 new",
        lines: &[
            "- d 0755 5 0 0 9 /",
            "- d 0755 2 0 0 1 /d",
            "- f 0644 1 0 0 3858 /d/x x*3858",
            "+ d 0755 5 0 0 10 /",
            "+ d 0755 2 0 0 0 /d",
            "+ f 0644 1 0 0 3858 /n x*3858",
        ],
    },
    Row {
        command: "rename /f /g",
        told: "ok, 3 old, 3 new, 1 gone",
        lines: &[
            "- d 0755 5 0 0 9 /",
            "- f 0644 1 0 0 9000 /f a*4096 .*4096 b*808",
            "- f 0644 1 0 0 100 /g g*100",
            "+ d 0755 5 0 0 8 /",
            "+ f 0644 1 0 0 9000 /g a*4096 .*4096 b*808",
        ],
    },
    Row {
        command: "rename /g /h",
        told: "ok, 2 old, 2 new",
        lines: &[
            "- d 0755 5 0 0 9 /",
            "- f 0644 1 0 0 100 /g g*100",
            "- f 0644 65535 0 0 3000 /h c*3000",
            "- f 0644 65535 0 0 3000 /aaaaaaaaaaaaaaaxxxxxxxca c*3000",
            "+ d 0755 5 0 0 8 /",
            "+ f 0644 1 0 0 100 /h g*100",
            "+ f 0644 65534 0 0 3000 /aaaaaaaaaaaaaaaxxxxxxxca c*3000",
        ],
    },
    Row {
        command: "rename /d /e",
        told: "ok, 2 old, 2 new, 1 gone",
        lines: &[
            "- d 0755 5 0 0 9 /",
            "- d 0755 2 0 0 1 /d",
            "- f 0644 1 0 0 3858 /d/x x*3858",
            "- d 0755 2 0 0 0 /e",
            "+ d 0755 4 0 0 8 /",
            "+ d 0755 2 0 0 1 /e",
            "+ f 0644 1 0 0 3858 /e/x x*3858",
        ],
    },
    Row {
        command: "rename /m /n",
        told: "ok, 1 old, 1 new",
        lines: &["- d 0755 65535 0 0 0 /m", "+ d 0755 65535 0 0 0 /n"],
    },
    Row {
        command: "rename /f /m/n",
        told: "ok, 4 old, 5 new",
        lines: &[
            "- d 0755 5 0 0 9 /",
            "- f 0644 1 0 0 9000 /f a*4096 .*4096 b*808",
            "- d 0755 65535 0 0 0 /m",
            "+ d 0755 5 0 0 8 /",
            "+ d 0755 65535 0 0 1 /m",
            "+ f 0644 1 0 0 9000 /m/n a*4096 .*4096 b*808",
        ],
    },
    Row {
        command: "rename /d/x /g",
        told: "ok, 4 old, 4 new, 1 gone",
        lines: &[
            "- d 0755 2 0 0 1 /d",
            "- f 0644 1 0 0 3858 /d/x x*3858",
            "- f 0644 1 0 0 100 /g g*100",
            "+ d 0755 2 0 0 0 /d",
            "+ f 0644 1 0 0 3858 /g x*3858",
        ],
    },
];

// `/f` and `/h` stand in extents, and these commands touch none of their bytes.
static BESIDE_EXTENTS: [Row; 4] = [
    Row {
        command: "rename /f /n",
        told: "ok, 1 old, 1 new",
        lines: &[
            "- f 0644 1 0 0 9000 /f a*4096 .*4096 b*808",
            "+ f 0644 1 0 0 9000 /n a*4096 .*4096 b*808",
        ],
    },
    Row {
        command: "unlink /g",
        told: "ok, 3 old, 3 new, 1 gone",
        lines: &[
            "- d 0755 5 0 0 9 /",
            "- f 0644 1 0 0 100 /g g*100",
            "+ d 0755 5 0 0 8 /",
        ],
    },
    Row {
        command: "fill /g 50 100 55",
        told: "ok, 2 old, 2 new",
        lines: &[
            "- f 0644 1 0 0 100 /g g*100",
            "+ f 0644 1 0 0 150 /g g*50 7*100",
        ],
    },
    Row {
        command: "create /d/n",
        told: "ok, 3 old, 4 new, 1 born",
        lines: &[
            "- d 0755 2 0 0 1 /d",
            "+ d 0755 2 0 0 2 /d",
            "+ f 0644 1 0 0 0 /d/n",
        ],
    },
];

#[test]
fn entries_move(rt: HostRuntime) -> Result<(), Fail> {
    all_become(&rt, rt.alloc(), Bodies::Tails, &RENAMES)
}

#[test]
fn extents_stay_as_they_are(rt: HostRuntime) -> Result<(), Fail> {
    all_become(&rt, rt.alloc(), Bodies::Extents, &BESIDE_EXTENTS)
}

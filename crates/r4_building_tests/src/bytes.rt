//! What commands make that set bytes or attributes.

use crate::rows::all_become;
use r4_change_testing::Row;
use r4_tree_testing::Bodies;
use std::test::Fail;

// Bytes are set or cut off: in one leaf, in two, behind the end, in a full leaf, and over several
// leaves that come.
static WRITING: [Row; 17] = [
    Row {
        command: "write /f 0 x",
        told: "ok, 1 old, 1 new",
        lines: &[
            "- f 0644 1 0 0 9000 /f a*4096 .*4096 b*808",
            "+ f 0644 1 0 0 9000 /f x*1 a*4095 .*4096 b*808",
        ],
    },
    Row {
        command: "write /f 3999 xy",
        told: "ok, 2 old, 2 new",
        lines: &[
            "- f 0644 1 0 0 9000 /f a*4096 .*4096 b*808",
            "+ f 0644 1 0 0 9000 /f a*3999 x*1 y*1 a*95 .*4096 b*808",
        ],
    },
    Row {
        command: "write /f 9100 x",
        told: "ok, 2 old, 2 new",
        lines: &[
            "- f 0644 1 0 0 9000 /f a*4096 .*4096 b*808",
            "+ f 0644 1 0 0 9101 /f a*4096 .*4096 b*808 .*100 x*1",
        ],
    },
    Row {
        command: "write /i 0 x",
        told: "ok, 2 old, 2 new",
        lines: &["- f 0644 1 0 0 0 /i", "+ f 0644 1 0 0 1 /i x*1"],
    },
    Row {
        command: "write /i 16383 x",
        told: "ok, 3 old, 7 new",
        lines: &["- f 0644 1 0 0 0 /i", "+ f 0644 1 0 0 16384 /i .*16383 x*1"],
    },
    Row {
        command: "write /d/x 3858 y",
        told: "ok, 2 old, 3 new",
        lines: &[
            "- f 0644 1 0 0 3858 /d/x x*3858",
            "+ f 0644 1 0 0 3859 /d/x x*3858 y*1",
        ],
    },
    Row {
        command: "fill /g 50 100 55",
        told: "ok, 2 old, 2 new",
        lines: &[
            "- f 0644 1 0 0 100 /g g*100",
            "+ f 0644 1 0 0 150 /g g*50 7*100",
        ],
    },
    Row {
        command: "fill /h 3000 1031 55",
        told: "ok, 3 old, 4 new",
        lines: &[
            "- f 0644 65535 0 0 3000 /h c*3000",
            "- f 0644 65535 0 0 3000 /aaaaaaaaaaaaaaaxxxxxxxca c*3000",
            "+ f 0644 65535 0 0 4031 /h c*3000 7*1031",
            "+ f 0644 65535 0 0 4031 /aaaaaaaaaaaaaaaxxxxxxxca c*3000 7*1031",
        ],
    },
    Row {
        command: "truncate /h 16384",
        told: "ok, 3 old, 7 new",
        lines: &[
            "- f 0644 65535 0 0 3000 /h c*3000",
            "- f 0644 65535 0 0 3000 /aaaaaaaaaaaaaaaxxxxxxxca c*3000",
            "+ f 0644 65535 0 0 16384 /h c*3000 .*13384",
            "+ f 0644 65535 0 0 16384 /aaaaaaaaaaaaaaaxxxxxxxca c*3000 .*13384",
        ],
    },
    Row {
        command: "truncate /h 0",
        told: "ok, 2 old, 2 new",
        lines: &[
            "- f 0644 65535 0 0 3000 /h c*3000",
            "- f 0644 65535 0 0 3000 /aaaaaaaaaaaaaaaxxxxxxxca c*3000",
            "+ f 0644 65535 0 0 0 /h",
            "+ f 0644 65535 0 0 0 /aaaaaaaaaaaaaaaxxxxxxxca",
        ],
    },
    Row {
        command: "truncate /f 4096",
        told: "ok, 3 old, 3 new",
        lines: &[
            "- f 0644 1 0 0 9000 /f a*4096 .*4096 b*808",
            "+ f 0644 1 0 0 4096 /f a*4096",
        ],
    },
    Row {
        command: "write /d/x 3857 y",
        told: "ok, 1 old, 1 new",
        lines: &[
            "- f 0644 1 0 0 3858 /d/x x*3858",
            "+ f 0644 1 0 0 3858 /d/x x*3857 y*1",
        ],
    },
    Row {
        command: "write /f 8999 x",
        told: "ok, 1 old, 1 new",
        lines: &[
            "- f 0644 1 0 0 9000 /f a*4096 .*4096 b*808",
            "+ f 0644 1 0 0 9000 /f a*4096 .*4096 b*807 x*1",
        ],
    },
    Row {
        command: "fill /h 3000 1030 55",
        told: "ok, 2 old, 2 new",
        lines: &[
            "- f 0644 65535 0 0 3000 /h c*3000",
            "- f 0644 65535 0 0 3000 /aaaaaaaaaaaaaaaxxxxxxxca c*3000",
            "+ f 0644 65535 0 0 4030 /h c*3000 7*1030",
            "+ f 0644 65535 0 0 4030 /aaaaaaaaaaaaaaaxxxxxxxca c*3000 7*1030",
        ],
    },
    Row {
        command: "fill /h 3000 13384 55",
        told: "ok, 3 old, 7 new",
        lines: &[
            "- f 0644 65535 0 0 3000 /h c*3000",
            "- f 0644 65535 0 0 3000 /aaaaaaaaaaaaaaaxxxxxxxca c*3000",
            "+ f 0644 65535 0 0 16384 /h c*3000 7*13384",
            "+ f 0644 65535 0 0 16384 /aaaaaaaaaaaaaaaxxxxxxxca c*3000 7*13384",
        ],
    },
    Row {
        command: "truncate /i 5",
        told: "ok, 2 old, 2 new",
        lines: &["- f 0644 1 0 0 0 /i", "+ f 0644 1 0 0 5 /i .*5"],
    },
    Row {
        command: "truncate /f 7900",
        told: "ok, 2 old, 2 new",
        lines: &[
            "- f 0644 1 0 0 9000 /f a*4096 .*4096 b*808",
            "+ f 0644 1 0 0 7900 /f a*4096 .*3804",
        ],
    },
];

// Attributes. Times are not listed.
static ATTRIBUTES: [Row; 3] = [
    Row {
        command: "chmod /d 700",
        told: "ok, 1 old, 1 new",
        lines: &["- d 0755 2 0 0 1 /d", "+ d 0700 2 0 0 1 /d"],
    },
    Row {
        command: "chown /d/x 1 2",
        told: "ok, 1 old, 1 new",
        lines: &[
            "- f 0644 1 0 0 3858 /d/x x*3858",
            "+ f 0644 1 1 2 3858 /d/x x*3858",
        ],
    },
    Row {
        command: "times / 1 2 3",
        told: "ok, 1 old, 1 new",
        lines: &[],
    },
];

#[test]
fn bytes_are_set_and_cut_off(rt: HostRuntime) -> Result<(), Fail> {
    all_become(&rt, rt.alloc(), Bodies::Tails, &WRITING)
}

#[test]
fn attributes_are_set(rt: HostRuntime) -> Result<(), Fail> {
    all_become(&rt, rt.alloc(), Bodies::Tails, &ATTRIBUTES)
}

//! What commands make that add entries or take them away. No byte is free in leaf 29, which has
//! `/d/x` and would get what comes below `/d`, `/e` and `/m`: two leaves come for it, and its twig
//! anew.

use crate::rows::all_become;
use r4_change_testing::Row;
use r4_tree_testing::Bodies;
use std::test::Fail;

// Objects, and further names.
static MAKING: [Row; 8] = [
    Row {
        command: "create /n",
        told: "ok, 2 old, 2 new, 1 born",
        lines: &[
            "- d 0755 5 0 0 9 /",
            "+ d 0755 5 0 0 10 /",
            "+ f 0644 1 0 0 0 /n",
        ],
    },
    Row {
        command: "create /d/n",
        told: "ok, 3 old, 4 new, 1 born",
        lines: &[
            "- d 0755 2 0 0 1 /d",
            "+ d 0755 2 0 0 2 /d",
            "+ f 0644 1 0 0 0 /d/n",
        ],
    },
    Row {
        command: "create /m/n",
        told: "ok, 3 old, 4 new, 1 born",
        lines: &[
            "- d 0755 65535 0 0 0 /m",
            "+ d 0755 65535 0 0 1 /m",
            "+ f 0644 1 0 0 0 /m/n",
        ],
    },
    Row {
        command: "mkdir /n",
        told: "ok, 2 old, 2 new, 1 born",
        lines: &[
            "- d 0755 5 0 0 9 /",
            "+ d 0755 6 0 0 10 /",
            "+ d 0755 2 0 0 0 /n",
        ],
    },
    Row {
        command: "mkdir /e/n",
        told: "ok, 3 old, 4 new, 1 born",
        lines: &[
            "- d 0755 2 0 0 0 /e",
            "+ d 0755 3 0 0 1 /e",
            "+ d 0755 2 0 0 0 /e/n",
        ],
    },
    Row {
        command: "link /f /n",
        told: "ok, 2 old, 2 new",
        lines: &[
            "- d 0755 5 0 0 9 /",
            "- f 0644 1 0 0 9000 /f a*4096 .*4096 b*808",
            "+ d 0755 5 0 0 10 /",
            "+ f 0644 2 0 0 9000 /f a*4096 .*4096 b*808",
            "+ f 0644 2 0 0 9000 /n a*4096 .*4096 b*808",
        ],
    },
    Row {
        command: "link /d/x /n",
        told: "ok, 2 old, 2 new",
        lines: &[
            "- d 0755 5 0 0 9 /",
            "- f 0644 1 0 0 3858 /d/x x*3858",
            "+ d 0755 5 0 0 10 /",
            "+ f 0644 2 0 0 3858 /d/x x*3858",
            "+ f 0644 2 0 0 3858 /n x*3858",
        ],
    },
    Row {
        command: "link /f /d/n",
        told: "ok, 3 old, 4 new",
        lines: &[
            "- d 0755 2 0 0 1 /d",
            "- f 0644 1 0 0 9000 /f a*4096 .*4096 b*808",
            "+ d 0755 2 0 0 2 /d",
            "+ f 0644 2 0 0 9000 /d/n a*4096 .*4096 b*808",
            "+ f 0644 2 0 0 9000 /f a*4096 .*4096 b*808",
        ],
    },
];

// The last name of a file, one of more, and directories. Leaves that are left without units stay.
static TAKING: [Row; 7] = [
    Row {
        command: "unlink /f",
        told: "ok, 5 old, 5 new, 1 gone",
        lines: &[
            "- d 0755 5 0 0 9 /",
            "- f 0644 1 0 0 9000 /f a*4096 .*4096 b*808",
            "+ d 0755 5 0 0 8 /",
        ],
    },
    Row {
        command: "unlink /i",
        told: "ok, 2 old, 2 new, 1 gone",
        lines: &[
            "- d 0755 5 0 0 9 /",
            "- f 0644 1 0 0 0 /i",
            "+ d 0755 5 0 0 8 /",
        ],
    },
    Row {
        command: "unlink /h",
        told: "ok, 2 old, 2 new",
        lines: &[
            "- d 0755 5 0 0 9 /",
            "- f 0644 65535 0 0 3000 /h c*3000",
            "- f 0644 65535 0 0 3000 /aaaaaaaaaaaaaaaxxxxxxxca c*3000",
            "+ d 0755 5 0 0 8 /",
            "+ f 0644 65534 0 0 3000 /aaaaaaaaaaaaaaaxxxxxxxca c*3000",
        ],
    },
    Row {
        command: "unlink /aaaaaaaaaaaaaaaxxxxxxxca",
        told: "ok, 2 old, 2 new",
        lines: &[
            "- d 0755 5 0 0 9 /",
            "- f 0644 65535 0 0 3000 /h c*3000",
            "- f 0644 65535 0 0 3000 /aaaaaaaaaaaaaaaxxxxxxxca c*3000",
            "+ d 0755 5 0 0 8 /",
            "+ f 0644 65534 0 0 3000 /h c*3000",
        ],
    },
    Row {
        command: "unlink /d/x",
        told: "ok, 2 old, 2 new, 1 gone",
        lines: &[
            "- d 0755 2 0 0 1 /d",
            "- f 0644 1 0 0 3858 /d/x x*3858",
            "+ d 0755 2 0 0 0 /d",
        ],
    },
    Row {
        command: "rmdir /e",
        told: "ok, 2 old, 2 new, 1 gone",
        lines: &[
            "- d 0755 5 0 0 9 /",
            "- d 0755 2 0 0 0 /e",
            "+ d 0755 4 0 0 8 /",
        ],
    },
    Row {
        command: "rmdir /m",
        told: "ok, 2 old, 2 new, 1 gone",
        lines: &[
            "- d 0755 5 0 0 9 /",
            "- d 0755 65535 0 0 0 /m",
            "+ d 0755 4 0 0 8 /",
        ],
    },
];

#[test]
fn objects_and_names_come(rt: HostRuntime) -> Result<(), Fail> {
    all_become(&rt, rt.alloc(), Bodies::Tails, &MAKING)
}

#[test]
fn objects_and_names_go(rt: HostRuntime) -> Result<(), Fail> {
    all_become(&rt, rt.alloc(), Bodies::Tails, &TAKING)
}

//! Large files that go, and whose blocks come back.

use crate::large::{Body, Large, holds};
use std::test::Fail;

// On 256 blocks 232 are free, and a file of 100 blocks leaves 132. Another one needs 100 more, and
// the price of 102 cells, 106, less that of the one cell that `create` changed, 5, which is taken
// up already: so it has no place beside the first (docs/space.md, "Price and free").
static ROWS: [Large; 3] = [
    Large {
        name: "one of two is all that has a place",
        blocks: 256,
        runs: &[
            &[
                ("begin", ""),
                ("create /f", "ok"),
                ("fill /f 0 409600 97", "ok"),
                ("end", ""),
                ("commit", ""),
                ("begin", ""),
                ("create /g", "ok"),
                ("fill /g 0 409600 98", "refused space 201 127"),
                ("unlink /f", "ok"),
                ("end", ""),
                ("commit", ""),
                ("begin", ""),
                ("fill /g 0 409600 98", "ok"),
                ("read /g 409598 4", "data 2 6262"),
                ("end", ""),
                ("commit", ""),
            ],
            &[
                ("begin", ""),
                ("unlink /g", "ok"),
                ("create /h", "ok"),
                ("end", ""),
                ("commit", ""),
                ("begin", ""),
                ("fill /h 0 409600 99", "ok"),
                ("read /h 204798 4", "data 4 63636363"),
                ("end", ""),
            ],
        ],
        listed: "d 0755 2 0 0 1 /\nf 0644 1 0 0 409600 /h\n",
        body: Body {
            path: "/h",
            line: "f 0644 1 0 0 409600 /h\n",
            pieces: &[("c", 409_600)],
        },
        checked: "objects 2 faults 0\n",
    },
    Large {
        name: "a file of more than one twig goes",
        blocks: 1024,
        runs: &[
            &[
                ("begin", ""),
                ("create /f", "ok"),
                ("fill /f 0 1048576 97", "ok"),
                ("end", ""),
                ("commit", ""),
                ("begin", ""),
                ("unlink /f", "ok"),
                ("end", ""),
                ("commit", ""),
            ],
            &[
                ("begin", ""),
                ("create /f", "ok"),
                ("fill /f 0 20000 98", "ok"),
                ("read /f 19998 4", "data 2 6262"),
                ("end", ""),
            ],
        ],
        listed: "d 0755 2 0 0 1 /\nf 0644 1 0 0 20000 /f\n",
        body: Body {
            path: "/f",
            line: "f 0644 1 0 0 20000 /f\n",
            pieces: &[("b", 20_000)],
        },
        checked: "objects 2 faults 0\n",
    },
    Large {
        name: "a file goes in the transaction that made it",
        blocks: 128,
        runs: &[
            &[
                ("begin", ""),
                ("create /f", "ok"),
                ("fill /f 0 100000 97", "ok"),
                ("unlink /f", "ok"),
                ("stat /f", "absent"),
                ("create /f", "ok"),
                ("fill /f 0 50000 98", "ok"),
                ("read /f 49998 4", "data 2 6262"),
                ("end", ""),
                ("commit", ""),
            ],
            &[
                ("begin", ""),
                ("create /g", "ok"),
                ("rename /g /f", "ok"),
                ("stat /f", "attr 100644 1 0 0 0 0 0 0"),
                ("stat /g", "absent"),
                ("write /f 0 x", "ok"),
                ("end", ""),
            ],
        ],
        listed: "d 0755 2 0 0 1 /\nf 0644 1 0 0 1 /f\n",
        body: Body {
            path: "/f",
            line: "f 0644 1 0 0 1 /f\n",
            pieces: &[("x", 1)],
        },
        checked: "objects 2 faults 0\n",
    },
];

#[test]
fn blocks_of_files_that_go_come_back(rt: HostRuntime) -> Result<(), Fail> {
    for row in &ROWS {
        holds(&rt, rt.alloc(), row)?;
    }
    Ok(())
}

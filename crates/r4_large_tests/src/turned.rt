//! Files whose bytes stand in tails, and which become larger than 16,384 bytes.

use crate::large::{Body, Large, holds};
use std::test::Fail;

static ROWS: [Large; 3] = [
    Large {
        name: "two files that are written at byte 16,384",
        blocks: 128,
        runs: &[
            &[
                ("begin", ""),
                ("create /f", "ok"),
                ("fill /f 0 16384 97", "ok"),
                ("create /g", "ok"),
                ("write /g 0 0123456789", "ok"),
                ("end", ""),
                ("commit", ""),
                ("begin", ""),
                ("write /f 16384 X", "ok"),
                ("read /f 16382 5", "data 3 616158"),
                ("write /g 16384 Z", "ok"),
                ("read /g 8 4", "data 4 38390000"),
                ("read /g 16382 5", "data 3 00005a"),
                ("end", ""),
                ("commit", ""),
            ],
            &[
                ("begin", ""),
                ("read /f 0 3", "data 3 616161"),
                ("read /f 16383 3", "data 2 6158"),
                ("truncate /f 20480", "ok"),
                ("read /f 16383 4", "data 4 61580000"),
                ("read /g 9 3", "data 3 390000"),
                ("end", ""),
            ],
        ],
        listed: "d 0755 2 0 0 2 /\nf 0644 1 0 0 20480 /f\nf 0644 1 0 0 16385 /g\n",
        body: Body {
            path: "/f",
            line: "f 0644 1 0 0 20480 /f\n",
            pieces: &[("a", 16_384), ("X", 1), ("\0", 4095)],
        },
        checked: "objects 3 faults 0\n",
    },
    Large {
        name: "a file that is filled over its tail",
        blocks: 64,
        runs: &[
            &[
                ("begin", ""),
                ("create /f", "ok"),
                ("write /f 100 abc", "ok"),
                ("fill /f 50 30000 122", "ok"),
                ("read /f 48 4", "data 4 00007a7a"),
                ("read /f 30048 4", "data 2 7a7a"),
                ("end", ""),
                ("commit", ""),
            ],
            &[
                ("begin", ""),
                ("read /f 48 4", "data 4 00007a7a"),
                ("truncate /f 51", "ok"),
                ("read /f 49 5", "data 2 007a"),
                ("write /f 60 end", "ok"),
                ("read /f 50 20", "data 13 7a000000000000000000656e64"),
                ("end", ""),
            ],
        ],
        listed: "d 0755 2 0 0 1 /\nf 0644 1 0 0 63 /f\n",
        body: Body {
            path: "/f",
            line: "f 0644 1 0 0 63 /f\n",
            pieces: &[("\0", 50), ("z", 1), ("\0", 9), ("end", 1)],
        },
        checked: "objects 2 faults 0\n",
    },
    Large {
        name: "a file that gets zeros behind its tail",
        blocks: 64,
        runs: &[
            &[
                ("begin", ""),
                ("create /f", "ok"),
                ("write /f 0 0123456789", "ok"),
                ("truncate /f 16385", "ok"),
                ("read /f 8 4", "data 4 38390000"),
                ("read /f 16383 5", "data 2 0000"),
                ("end", ""),
                ("commit", ""),
            ],
            &[
                ("begin", ""),
                ("read /f 8 4", "data 4 38390000"),
                ("write /f 16384 Z", "ok"),
                ("read /f 16382 5", "data 3 00005a"),
                ("end", ""),
            ],
        ],
        listed: "d 0755 2 0 0 1 /\nf 0644 1 0 0 16385 /f\n",
        body: Body {
            path: "/f",
            line: "f 0644 1 0 0 16385 /f\n",
            pieces: &[("0123456789", 1), ("\0", 16_374), ("Z", 1)],
        },
        checked: "objects 2 faults 0\n",
    },
];

#[test]
fn tails_turn_to_blocks(rt: HostRuntime) -> Result<(), Fail> {
    for row in &ROWS {
        holds(&rt, rt.alloc(), row)?;
    }
    Ok(())
}

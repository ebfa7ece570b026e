//! Large files with holes: bytes far behind the end, and bytes that come into a hole afterwards.

use crate::large::{Body, Large, holds};
use std::test::Fail;

static ROWS: [Large; 2] = [
    Large {
        name: "bytes far behind the end",
        blocks: 64,
        runs: &[
            &[
                ("begin", ""),
                ("create /f", "ok"),
                ("write /f 1000000 end", "ok"),
                ("read /f 0 4", "data 4 00000000"),
                ("read /f 999422 4", "data 4 00000000"),
                ("read /f 999999 3", "data 3 00656e"),
                ("read /f 1000002 5", "data 1 64"),
                ("stat /f", "attr 100644 1 1000003 0 0 0 0 0"),
                ("end", ""),
                ("commit", ""),
                ("begin", ""),
                ("write /f 500000 mid", "ok"),
                ("read /f 499998 7", "data 7 00006d69640000"),
                ("write /f 8190 abcd", "ok"),
                ("read /f 8188 8", "data 8 0000616263640000"),
                ("write /f 0 B", "ok"),
                ("read /f 0 3", "data 3 420000"),
                ("end", ""),
                ("commit", ""),
            ],
            &[
                ("begin", ""),
                ("read /f 999998 10", "data 5 0000656e64"),
                ("read /f 8188 8", "data 8 0000616263640000"),
                ("fill /f 600000 3 120", "ok"),
                ("read /f 599999 5", "data 5 0078787800"),
                ("truncate /f 700000", "ok"),
                ("read /f 699998 5", "data 2 0000"),
                ("end", ""),
            ],
        ],
        listed: "d 0755 2 0 0 1 /\nf 0644 1 0 0 700000 /f\n",
        body: Body {
            path: "/f",
            line: "f 0644 1 0 0 700000 /f\n",
            pieces: &[
                ("B", 1),
                ("\0", 8189),
                ("abcd", 1),
                ("\0", 491_806),
                ("mid", 1),
                ("\0", 99_997),
                ("xxx", 1),
                ("\0", 99_997),
            ],
        },
        checked: "objects 2 faults 0\n",
    },
    Large {
        name: "a hole between blocks",
        blocks: 64,
        runs: &[
            &[
                ("begin", ""),
                ("create /f", "ok"),
                ("fill /f 0 20480 97", "ok"),
                ("write /f 40960 Z", "ok"),
                ("read /f 20478 4", "data 4 61610000"),
                ("read /f 40958 4", "data 3 00005a"),
                ("end", ""),
                ("commit", ""),
            ],
            &[
                ("begin", ""),
                ("fill /f 24576 4096 98", "ok"),
                ("read /f 24574 4", "data 4 00006262"),
                ("read /f 28670 4", "data 4 62620000"),
                ("fill /f 20480 4096 99", "ok"),
                ("read /f 20478 4", "data 4 61616363"),
                ("read /f 24574 4", "data 4 63636262"),
                ("end", ""),
            ],
        ],
        listed: "d 0755 2 0 0 1 /\nf 0644 1 0 0 40961 /f\n",
        body: Body {
            path: "/f",
            line: "f 0644 1 0 0 40961 /f\n",
            pieces: &[
                ("a", 20_480),
                ("c", 4096),
                ("b", 4096),
                ("\0", 12_288),
                ("Z", 1),
            ],
        },
        checked: "objects 2 faults 0\n",
    },
];

#[test]
fn holes_are_read_and_filled(rt: HostRuntime) -> Result<(), Fail> {
    for row in &ROWS {
        holds(&rt, rt.alloc(), row)?;
    }
    Ok(())
}

//! Small files and directories beside large files, and large files beside each other.

use crate::large::{Body, Large, holds};
use std::test::Fail;

static ROWS: [Large; 3] = [
    Large {
        name: "small files before and behind a large one",
        blocks: 128,
        runs: &[
            &[
                ("begin", ""),
                ("create /m", "ok"),
                ("fill /m 0 20000 109", "ok"),
                ("create /a", "ok"),
                ("write /a 0 before", "ok"),
                ("mkdir /d", "ok"),
                ("create /d/x", "ok"),
                ("write /d/x 0 small", "ok"),
                ("create /z", "ok"),
                ("write /z 0 behind", "ok"),
                ("read /z 0 10", "data 6 626568696e64"),
                ("end", ""),
                ("commit", ""),
                ("begin", ""),
                ("rename /z /d/z", "ok"),
                ("link /m /d/m2", "ok"),
                ("unlink /m", "ok"),
                ("rename /d/m2 /big", "ok"),
                ("read /big 19998 4", "data 2 6d6d"),
                ("names /d", "names 2 x z"),
                ("fill /big 16380 8 110", "ok"),
                ("read /big 16379 10", "data 10 6d6e6e6e6e6e6e6e6e6d"),
                ("end", ""),
                ("commit", ""),
            ],
            &[
                ("begin", ""),
                ("read /d/z 0 10", "data 6 626568696e64"),
                ("read /d/x 3 5", "data 2 6c6c"),
                ("read /a 0 3", "data 3 626566"),
                ("unlink /d/z", "ok"),
                ("write /big 20000 more", "ok"),
                ("read /big 19999 10", "data 5 6d6d6f7265"),
                ("end", ""),
            ],
        ],
        listed: "\
d 0755 3 0 0 3 /\n\
f 0644 1 0 0 6 /a\n\
f 0644 1 0 0 20004 /big\n\
d 0755 2 0 0 1 /d\n\
f 0644 1 0 0 5 /d/x\n",
        body: Body {
            path: "/big",
            line: "f 0644 1 0 0 20004 /big\n",
            pieces: &[("m", 16_380), ("n", 8), ("m", 3612), ("more", 1)],
        },
        checked: "objects 5 faults 0\n",
    },
    Large {
        name: "three files, two of them large",
        blocks: 128,
        runs: &[
            &[
                ("begin", ""),
                ("create /a", "ok"),
                ("create /b", "ok"),
                ("fill /a 0 20000 97", "ok"),
                ("fill /b 0 20000 98", "ok"),
                ("fill /a 20000 20000 97", "ok"),
                ("truncate /b 5000", "ok"),
                ("write /b 8192 W", "ok"),
                ("create /c", "ok"),
                ("fill /c 0 10000 99", "ok"),
                ("end", ""),
                ("commit", ""),
                ("begin", ""),
                ("unlink /a", "ok"),
                ("read /b 4998 5", "data 5 6262000000"),
                ("read /b 8190 5", "data 3 000057"),
                ("read /c 9998 5", "data 2 6363"),
                ("fill /c 10000 10000 100", "ok"),
                ("read /c 9998 4", "data 4 63636464"),
                ("end", ""),
                ("commit", ""),
            ],
            &[
                ("begin", ""),
                ("create /a", "ok"),
                ("fill /a 0 17000 101", "ok"),
                ("read /a 16999 2", "data 1 65"),
                ("read /b 4998 5", "data 5 6262000000"),
                ("read /c 19998 5", "data 2 6464"),
                ("end", ""),
            ],
        ],
        listed: "\
d 0755 2 0 0 3 /\n\
f 0644 1 0 0 17000 /a\n\
f 0644 1 0 0 8193 /b\n\
f 0644 1 0 0 20000 /c\n",
        body: Body {
            path: "/c",
            line: "f 0644 1 0 0 20000 /c\n",
            pieces: &[("c", 10_000), ("d", 10_000)],
        },
        checked: "objects 4 faults 0\n",
    },
    Large {
        name: "a large file of a directory that goes",
        blocks: 128,
        runs: &[
            &[
                ("begin", ""),
                ("mkdir /d", "ok"),
                ("create /d/f", "ok"),
                ("fill /d/f 0 20000 102", "ok"),
                ("create /e", "ok"),
                ("rename /d /x", "ok"),
                ("read /x/f 19998 4", "data 2 6666"),
                ("rename /x/f /top", "ok"),
                ("rmdir /x", "ok"),
                ("end", ""),
                ("commit", ""),
                ("begin", ""),
                ("read /top 16383 2", "data 2 6666"),
                ("truncate /top 10", "ok"),
                ("write /top 20 tail", "ok"),
                ("read /top 8 20", "data 16 6666000000000000000000007461696c"),
                ("end", ""),
                ("commit", ""),
            ],
            &[
                ("begin", ""),
                ("read /top 8 20", "data 16 6666000000000000000000007461696c"),
                ("unlink /e", "ok"),
                ("rename /top /e", "ok"),
                ("write /e 4096 q", "ok"),
                ("read /e 4094 5", "data 3 000071"),
                ("end", ""),
            ],
        ],
        listed: "d 0755 2 0 0 1 /\nf 0644 1 0 0 4097 /e\n",
        body: Body {
            path: "/e",
            line: "f 0644 1 0 0 4097 /e\n",
            pieces: &[("f", 10), ("\0", 10), ("tail", 1), ("\0", 4072), ("q", 1)],
        },
        checked: "objects 2 faults 0\n",
    },
];

#[test]
fn files_stand_beside_large_ones(rt: HostRuntime) -> Result<(), Fail> {
    for row in &ROWS {
        holds(&rt, rt.alloc(), row)?;
    }
    Ok(())
}

//! Large files that are filled and written, within blocks and over their borders.

use crate::large::{Body, Large, holds};
use std::test::Fail;

// The file of the second row has more blocks than one twig can name when they come.
static ROWS: [Large; 2] = [
    Large {
        name: "bytes at both sides of borders",
        blocks: 64,
        runs: &[
            &[
                ("begin", ""),
                ("create /f", "ok"),
                ("fill /f 0 20000 97", "ok"),
                ("read /f 4094 4", "data 4 61616161"),
                ("write /f 4095 XY", "ok"),
                ("read /f 4094 4", "data 4 61585961"),
                ("write /f 16382 0123", "ok"),
                ("read /f 16380 8", "data 8 6161303132336161"),
                ("read /f 19998 5", "data 2 6161"),
                ("read /f 20000 1", "data 0"),
                ("stat /f", "attr 100644 1 20000 0 0 0 0 0"),
                ("end", ""),
                ("commit", ""),
            ],
            &[
                ("begin", ""),
                ("read /f 4094 4", "data 4 61585961"),
                ("read /f 16380 8", "data 8 6161303132336161"),
                ("fill /f 12286 4 98", "ok"),
                ("read /f 12285 6", "data 6 616262626261"),
                ("fill /f 19999 2 99", "ok"),
                ("read /f 19998 5", "data 3 616363"),
                ("chmod /f 640", "ok"),
                ("chown /f 7 8", "ok"),
                ("end", ""),
            ],
        ],
        listed: "d 0755 2 0 0 1 /\nf 0640 1 7 8 20001 /f\n",
        body: Body {
            path: "/f",
            line: "f 0640 1 7 8 20001 /f\n",
            pieces: &[
                ("a", 4095),
                ("XY", 1),
                ("a", 8189),
                ("b", 4),
                ("a", 4092),
                ("0123", 1),
                ("a", 3613),
                ("c", 2),
            ],
        },
        checked: "objects 2 faults 0\n",
    },
    Large {
        name: "more than one twig",
        blocks: 1024,
        runs: &[
            &[
                ("begin", ""),
                ("create /f", "ok"),
                ("fill /f 0 1048576 97", "ok"),
                ("read /f 1048574 5", "data 2 6161"),
                ("end", ""),
                ("commit", ""),
                ("begin", ""),
                ("fill /f 1028094 8194 98", "ok"),
                ("read /f 1028092 4", "data 4 61616262"),
                ("read /f 1036286 4", "data 4 62626161"),
                ("end", ""),
            ],
            &[
                ("begin", ""),
                ("read /f 1028092 4", "data 4 61616262"),
                ("read /f 1036286 4", "data 4 62626161"),
                ("truncate /f 2000000", "ok"),
                ("write /f 1999999 Z", "ok"),
                ("read /f 1048574 4", "data 4 61610000"),
                ("read /f 1999997 5", "data 3 00005a"),
                ("end", ""),
            ],
        ],
        listed: "d 0755 2 0 0 1 /\nf 0644 1 0 0 2000000 /f\n",
        body: Body {
            path: "/f",
            line: "f 0644 1 0 0 2000000 /f\n",
            pieces: &[
                ("a", 1_028_094),
                ("b", 8194),
                ("a", 12_288),
                ("\0", 951_423),
                ("Z", 1),
            ],
        },
        checked: "objects 2 faults 0\n",
    },
];

#[test]
fn large_files_are_filled(rt: HostRuntime) -> Result<(), Fail> {
    for row in &ROWS {
        holds(&rt, rt.alloc(), row)?;
    }
    Ok(())
}

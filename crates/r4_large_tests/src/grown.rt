//! A file that grows to 300 blocks over three twigs, the last 60 of them one by one, beside another one of 240, and is
//! cut back.

use crate::large::{Body, has_bytes, shows, tells};
use crate::traces::Told;
use r4_run_testing::{LIST, fresh};
use std::alloc::Global;
use std::test::Fail;

// How many blocks the file has at first, and how many in the end. Each block that comes is a unit of
// 16 bytes, and those of both files have no room in two twigs.
const FIRST: u64 = 240;

const BLOCKS: u64 = 300;

static BODY: Body = Body {
    path: "/f",
    line: "f 0644 1 0 0 409607 /f\n",
    pieces: &[("a", 409_607)],
};

// The script by which both files grow, one of them block by block in the end.
fn growing(alloc: Global) -> Result<Told, Fail> {
    let mut told = Told::new(alloc)?;
    told.add(alloc, "begin", "")?;
    told.add(alloc, "create /f", "ok")?;
    told.add(alloc, "create /g", "ok")?;
    told.add(alloc, "fill /g 0 983040 98", "ok")?;
    told.add(alloc, "fill /f 0 983040 97", "ok")?;
    for block in FIRST..BLOCKS {
        let offset = block.saturating_mul(4096);
        let line = format!(in alloc; "fill /f {offset} 4096 97")?;
        told.add(alloc, line.as_str(), "ok")?;
    }
    told.add(alloc, "end", "")?;
    told.leave(alloc)?;
    Ok(told)
}

// The script by which one is cut back.
fn cut_back(alloc: Global) -> Result<Told, Fail> {
    Told::of(
        alloc,
        &[
            ("begin", ""),
            ("stat /f", "attr 100644 1 1228800 0 0 0 0 0"),
            ("stat /g", "attr 100644 1 983040 0 0 0 0 0"),
            ("read /f 1228799 2", "data 1 61"),
            ("truncate /f 409607", "ok"),
            ("read /f 409600 16", "data 7 61616161616161"),
            ("write /g 983040 end", "ok"),
            ("read /g 983038 9", "data 5 6262656e64"),
            ("end", ""),
        ],
    )
}

#[test]
fn file_of_300_blocks_is_cut_back(rt: HostRuntime) -> Result<(), Fail> {
    let alloc = rt.alloc();
    let mut dev = fresh(&rt, alloc, 2048)?;
    tells(&rt, alloc, &mut dev, &growing(alloc)?, "grows")?;
    tells(&rt, alloc, &mut dev, &cut_back(alloc)?, "is cut")?;
    let listed = "d 0755 2 0 0 2 /\nf 0644 1 0 0 409607 /f\nf 0644 1 0 0 983043 /g\n";
    shows(&rt, alloc, &LIST, &mut dev, listed)?;
    shows(
        &rt,
        alloc,
        &["check", "image"],
        &mut dev,
        "objects 3 faults 0\n",
    )?;
    assert!(rt; has_bytes(&rt, alloc, &mut dev, &BODY)?);
    Ok(())
}

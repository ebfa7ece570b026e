//! Images of which a few bytes were changed.

use crate::changed::{Change, change, runs_so};
use r4_outside::MemoryDevice;
use r4_run_testing::{RUN, fresh, printed};
use std::alloc::Global;
use std::process::Abort;
use std::sync::Wait;
use std::test::Fail;
use std::thread::Threads;

/// A fresh volume of so many blocks, the scripts that an earlier run served on it, the changes that are
/// made then, and a run: its scripts, and what it prints.
struct Row {
    blocks: u64,
    made: &'static str,
    changes: &'static [Change<'static>],
    text: &'static str,
    told: &'static str,
}

const STAT: &str = "script\nstat /\n";

const DAMAGED: &str = "refused t0 s1 c1 damaged 22\n";

// The greatest id that a superblock may have, which no object gets.
const LAST_ID: &[u8] = &[255, 255, 255, 255, 255, 255, 255, 15];

static ROWS: [Row; 9] = [
    // `/d/f` has 65,535 links. In the leaf, bodies begin at 28: before its own stand the root's stat data,
    // 44 bytes; its entry, 52; the stat data of `/d`; and the entry of that, 52. Links stand behind mask and
    // mode.
    Row {
        blocks: 1024,
        made: "script\nmkdir /d\ncreate /d/f\n",
        changes: &[(23, 224, &[255, 255])],
        text: "script\nbegin\nlink /d/f /g\nstat /d/f\nnames /\nend\n",
        told: "\
begin t1 s1\n\
done t1 s1 c2 links\n\
done t1 s1 c3 attr 100644 65535 0 0 0 0 0 0\n\
done t1 s1 c4 names 1 d\n\
ended t1\n\
sealed a1\n\
committed a1\n",
    },
    // The root has 65,535 links.
    Row {
        blocks: 64,
        made: "script\nmkdir /d\nmkdir /d/e\n",
        changes: &[(23, 32, &[255, 255])],
        text: "script\nbegin\nmkdir /x\nrename /d/e /x\ncreate /x\nstat /\nend\n",
        told: "\
begin t1 s1\n\
done t1 s1 c2 links\n\
done t1 s1 c3 links\n\
done t1 s1 c4 ok\n\
done t1 s1 c5 attr 40755 65535 2 0 0 0 0 0\n\
ended t1\n\
sealed a1\n\
committed a1\n",
    },
    // No object id is left.
    Row {
        blocks: 1024,
        made: "script\ncreate /a\n",
        changes: &[(17, 24, LAST_ID)],
        text: "script\nbegin\ncreate /h\nmkdir /h\ncreate /a\nlink /a /h\nend\n",
        told: "\
begin t1 s1\n\
done t1 s1 c2 oids\n\
done t1 s1 c3 oids\n\
done t1 s1 c4 exists\n\
done t1 s1 c5 ok\n\
ended t1\n\
sealed a1\n\
committed a1\n",
    },
    // The root names itself.
    Row {
        blocks: 64,
        made: "",
        changes: &[(22, 28, &[22])],
        text: STAT,
        told: DAMAGED,
    },
    // It names a block that is not there.
    Row {
        blocks: 64,
        made: "",
        changes: &[(22, 28, &[70])],
        text: STAT,
        told: DAMAGED,
    },
    // The root directory has a link too many.
    Row {
        blocks: 64,
        made: "",
        changes: &[(23, 32, &[3])],
        text: STAT,
        told: "\
begin t1 s1\n\
done t1 s1 c1 attr 40755 3 0 0 0 0 0 0\n\
ended t1\n\
sealed a1\n\
committed a1\n",
    },
    // It counts an entry that is not there.
    Row {
        blocks: 64,
        made: "",
        changes: &[(23, 36, &[1])],
        text: STAT,
        told: "\
begin t1 s1\n\
done t1 s1 c1 attr 40755 2 1 0 0 0 0 0\n\
ended t1\n\
sealed a1\n\
committed a1\n",
    },
    // The superblock counts an object too many.
    Row {
        blocks: 64,
        made: "",
        changes: &[(17, 32, &[2])],
        text: STAT,
        told: "\
begin t1 s1\n\
done t1 s1 c1 attr 40755 2 0 0 0 0 0 0\n\
ended t1\n\
sealed a1\n\
committed a1\n",
    },
    // The leaf's first body does not begin behind its head.
    Row {
        blocks: 64,
        made: "",
        changes: &[(23, 4090, &[29])],
        text: STAT,
        told: "refused t0 s1 c1 damaged 23\n",
    },
];

// The image of a row.
fn image<X: Threads + Wait + Sync>(rt: &X, alloc: Global, row: &Row) -> Result<MemoryDevice, Fail> {
    let mut dev = fresh(rt, alloc, row.blocks)?;
    let _ = printed(rt, alloc, &RUN, &mut dev, row.made, 0)?;
    change(alloc, &mut dev, row.changes)?;
    Ok(dev)
}

// A row is as it says.
fn holds<X: Abort + Threads + Wait + Sync>(rt: &X, alloc: Global, row: &Row) -> Result<(), Fail> {
    let mut dev = image(rt, alloc, row)?;
    runs_so(rt, alloc, &mut dev, row.text, row.told)
}

#[test]
fn changed_images_are_served(rt: HostRuntime) -> Result<(), Fail> {
    for row in &ROWS {
        holds(&rt, rt.alloc(), row)?;
    }
    Ok(())
}

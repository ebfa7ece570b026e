//! Parts of the scripts of two seeds, and how many commands they have.

use r4_base::{Memory, Oid};
use r4_content::Command;
use r4_gen::workload;
use r4_script::{Job, parse};
use std::alloc::Global;
use std::test::Fail;

// How many commands each script has: of 50 directories 5,000 files are made by four commands each, and
// 2,500 removed, with ten commits both times.
const COMMANDS: usize = 50 + 4 * 5000 + 10 + 2500 + 10;

// Lines that stand in a script from a place on: seeds, scripts from 1, places from 0.
static PARTS: [(u64, usize, usize, &str); 24] = [
    (
        7,
        1,
        0,
        "mkdir /d000\nbegin\ncreate /d000/f00000\nfill /d000/f00000 0 707 97\nend",
    ),
    (
        7,
        1,
        2001,
        "begin\ncreate /d016/f01699\nfill /d016/f01699 0 1570 106\nend\ncommit\nmkdir /d020",
    ),
    (
        7,
        1,
        20055,
        "begin\ncreate /d196/f19699\nfill /d196/f19699 0 1570 114\nend\ncommit\nunlink /d000/f00000\nunlink /d000/f00002",
    ),
    (
        7,
        1,
        22567,
        "unlink /d196/f19696\nunlink /d196/f19698\ncommit",
    ),
    (
        7,
        2,
        0,
        "mkdir /d001\nbegin\ncreate /d001/f00100\nfill /d001/f00100 0 407 119\nend",
    ),
    (
        7,
        2,
        22567,
        "unlink /d197/f19796\nunlink /d197/f19798\ncommit",
    ),
    (
        7,
        3,
        0,
        "mkdir /d002\nbegin\ncreate /d002/f00200\nfill /d002/f00200 0 107 115\nend",
    ),
    (
        7,
        3,
        22567,
        "unlink /d198/f19896\nunlink /d198/f19898\ncommit",
    ),
    (
        7,
        4,
        0,
        "mkdir /d003\nbegin\ncreate /d003/f00300\nfill /d003/f00300 0 1807 111\nend",
    ),
    (
        7,
        4,
        2001,
        "begin\ncreate /d019/f01999\nfill /d019/f01999 0 670 120\nend\ncommit\nmkdir /d023",
    ),
    (
        7,
        4,
        20055,
        "begin\ncreate /d199/f19999\nfill /d199/f19999 0 670 102\nend\ncommit\nunlink /d003/f00300\nunlink /d003/f00302",
    ),
    (
        7,
        4,
        22567,
        "unlink /d199/f19996\nunlink /d199/f19998\ncommit",
    ),
    (
        u64::MAX,
        1,
        0,
        "mkdir /d000\nbegin\ncreate /d000/f00000\nfill /d000/f00000 0 1115 97\nend",
    ),
    (
        u64::MAX,
        1,
        2001,
        "begin\ncreate /d016/f01699\nfill /d016/f01699 0 1978 106\nend\ncommit\nmkdir /d020",
    ),
    (
        u64::MAX,
        1,
        20055,
        "begin\ncreate /d196/f19699\nfill /d196/f19699 0 1978 114\nend\ncommit\nunlink /d000/f00000\nunlink /d000/f00002",
    ),
    (
        u64::MAX,
        1,
        22567,
        "unlink /d196/f19696\nunlink /d196/f19698\ncommit",
    ),
    (
        u64::MAX,
        2,
        0,
        "mkdir /d001\nbegin\ncreate /d001/f00100\nfill /d001/f00100 0 815 119\nend",
    ),
    (
        u64::MAX,
        2,
        22567,
        "unlink /d197/f19796\nunlink /d197/f19798\ncommit",
    ),
    (
        u64::MAX,
        3,
        0,
        "mkdir /d002\nbegin\ncreate /d002/f00200\nfill /d002/f00200 0 515 115\nend",
    ),
    (
        u64::MAX,
        3,
        22567,
        "unlink /d198/f19896\nunlink /d198/f19898\ncommit",
    ),
    (
        u64::MAX,
        4,
        0,
        "mkdir /d003\nbegin\ncreate /d003/f00300\nfill /d003/f00300 0 215 111\nend",
    ),
    (
        u64::MAX,
        4,
        2001,
        "begin\ncreate /d019/f01999\nfill /d019/f01999 0 1078 120\nend\ncommit\nmkdir /d023",
    ),
    (
        u64::MAX,
        4,
        20055,
        "begin\ncreate /d199/f19999\nfill /d199/f19999 0 1078 102\nend\ncommit\nunlink /d003/f00300\nunlink /d003/f00302",
    ),
    (
        u64::MAX,
        4,
        22567,
        "unlink /d199/f19996\nunlink /d199/f19998\ncommit",
    ),
];

// Whether the commands begin with the others.
fn begin_with(commands: &[Command], wanted: &[Command]) -> bool {
    for (found, want) in commands.iter().zip(wanted.iter()) {
        if !found.is_job(want, Oid(0)) {
            return false;
        }
    }
    commands.len() >= wanted.len()
}

// Whether the lines, which are a script's, stand in the script of the job from a place on.
fn stand(job: &Job, number: usize, place: usize, lines: &Job) -> bool {
    let Some(script) = job.scripts.as_slice().get(number) else {
        return false;
    };
    let Some(wanted) = lines.scripts.as_slice().first() else {
        return false;
    };
    match script.commands.as_slice().get(place..) {
        Some(rest) => begin_with(rest, wanted.commands.as_slice()),
        None => false,
    }
}

// Whether the parts of a seed stand in its scripts.
fn parts_stand(alloc: Global, seed: u64) -> Result<bool, Memory> {
    let job = workload(alloc, seed)?;
    for &(of, number, place, lines) in &PARTS {
        let text = format!(in alloc; "script\n{lines}")?;
        let Ok(lines) = parse(alloc, text.as_bytes()) else {
            return Ok(false);
        };
        if of == seed && !stand(&job, number.saturating_sub(1), place, &lines) {
            return Ok(false);
        }
    }
    Ok(true)
}

#[test]
fn parts_stand_in_their_places(rt: HostRuntime) -> Result<(), Fail> {
    for seed in [7, u64::MAX] {
        assert!(rt; parts_stand(rt.alloc(), seed)?, "seed {seed}");
    }
    Ok(())
}

#[test]
fn four_scripts_are_as_long(rt: HostRuntime) -> Result<(), Fail> {
    let job = workload(rt.alloc(), 0)?;
    assert_eq!(rt; job.scripts.as_slice().len(), 4);
    for script in job.scripts.as_slice() {
        assert_eq!(rt; script.commands.as_slice().len(), COMMANDS);
    }
    Ok(())
}

//! Texts of scripts that are as long as they may be, and longer.

use r4_run_testing::{RUN, fresh, printed};
use std::alloc::Global;
use std::process::Abort;
use std::sync::Wait;
use std::test::Fail;
use std::thread::Threads;

/// A text: what it begins with, and what follows so many times; its status, and what is printed.
struct Row {
    first: &'static str,
    piece: &'static str,
    times: u32,
    status: u8,
    told: &'static str,
}

const MADE: &str = "script\nbegin\ncreate /a\nwrite /a 0 ";

const WRITTEN: &str = "\
begin t1 s1\n\
done t1 s1 c2 ok\n\
done t1 s1 c3 ok\n\
ended t1\n\
sealed a1\n\
committed a1\n";

// Scripts, the bytes that a command writes, and the bytes of the whole text: as many as there may be, and
// one more.
static ROWS: [Row; 6] = [
    Row {
        first: "",
        piece: "script\n",
        times: 64,
        status: 0,
        told: "",
    },
    Row {
        first: "",
        piece: "script\n",
        times: 65,
        status: 3,
        told: "script: line 65 column 1: scripts\n",
    },
    Row {
        first: MADE,
        piece: "x",
        times: 4096,
        status: 0,
        told: WRITTEN,
    },
    Row {
        first: MADE,
        piece: "x",
        times: 4097,
        status: 3,
        told: "script: line 4 column 4108: text\n",
    },
    Row {
        first: "",
        piece: "# 13 bytes more\n",
        times: 1_048_576,
        status: 0,
        told: "",
    },
    Row {
        first: "#",
        piece: "# 13 bytes more\n",
        times: 1_048_576,
        status: 3,
        told: "script: line 1048576 column 16: long\n",
    },
];

// The text of a row.
fn text(alloc: Global, row: &Row) -> Result<String, Fail> {
    let mut text = String::from_str(alloc, row.first)?;
    for _ in 0..row.times {
        text.push_str(row.piece)?;
    }
    Ok(text)
}

// Ends the test unless a row is as it says.
fn holds<X: Abort + Threads + Wait + Sync>(rt: &X, alloc: Global, row: &Row) -> Result<(), Fail> {
    let mut dev = fresh(rt, alloc, 64)?;
    let text = text(alloc, row)?;
    let told = printed(rt, alloc, &RUN, &mut dev, text.as_str(), row.status)?;
    assert_eq!(rt; told.as_slice(), row.told.as_bytes());
    Ok(())
}

#[test]
fn texts_end_at_their_limits(rt: HostRuntime) -> Result<(), Fail> {
    for row in &ROWS {
        holds(&rt, rt.alloc(), row)?;
    }
    Ok(())
}

//! What is done with large files in two runs, and what is found then.

use crate::traces::{Line, Told};
use r4_outside::MemoryDevice;
use r4_run_testing::{LIST, RUN, fresh, printed};
use std::alloc::Global;
use std::process::Abort;
use std::sync::Wait;
use std::test::Fail;
use std::thread::Threads;

const CHECK: [&str; 2] = ["check", "image"];

/// A text that stands so many times in a file.
pub type Piece = (&'static str, u32);

/// A file: its path, its line in a listing, and its bytes.
pub struct Body {
    pub path: &'static str,
    pub line: &'static str,
    pub pieces: &'static [Piece],
}

/// The blocks of a fresh volume, and two runs on it, one after the other; then what is listed of
/// the root and of a file, and what a check prints.
pub struct Large {
    pub name: &'static str,
    pub blocks: u64,
    pub runs: &'static [&'static [Line]],
    pub listed: &'static str,
    pub body: Body,
    pub checked: &'static str,
}

/// Ends the test unless all is as a row says.
pub fn holds<X: Abort + Threads + Wait + Sync>(
    rt: &X,
    alloc: Global,
    row: &Large,
) -> Result<(), Fail> {
    let mut dev = fresh(rt, alloc, row.blocks)?;
    for run in row.runs {
        tells(rt, alloc, &mut dev, &Told::of(alloc, run)?, row.name)?;
    }
    is_left(rt, alloc, &mut dev, row)
}

/// Ends the test unless a run prints just its trace.
pub fn tells<X: Abort + Threads + Wait + Sync>(
    rt: &X,
    alloc: Global,
    dev: &mut MemoryDevice,
    run: &Told,
    name: &str,
) -> Result<(), Fail> {
    let told = printed(rt, alloc, &RUN, dev, run.text.as_str(), 0)?;
    let told = String::from_utf8_lossy(alloc, &told)?;
    assert_eq!(rt; told.as_str(), run.trace.as_str(), "{name}");
    Ok(())
}

// Ends the test unless the volume, and one file's bytes, are as a row says.
fn is_left<X: Abort + Threads + Wait + Sync>(
    rt: &X,
    alloc: Global,
    dev: &mut MemoryDevice,
    row: &Large,
) -> Result<(), Fail> {
    shows(rt, alloc, &LIST, dev, row.listed)?;
    shows(rt, alloc, &CHECK, dev, row.checked)?;
    assert!(rt; has_bytes(rt, alloc, dev, &row.body)?, "{}", row.name);
    Ok(())
}

/// Ends the test unless a call that only reads goes well and prints just this.
pub fn shows<X: Abort + Threads + Wait + Sync>(
    rt: &X,
    alloc: Global,
    words: &[&str],
    dev: &mut MemoryDevice,
    wanted: &str,
) -> Result<(), Fail> {
    let told = printed(rt, alloc, words, dev, "", 0)?;
    let told = String::from_utf8_lossy(alloc, &told)?;
    assert_eq!(rt; told.as_str(), wanted);
    Ok(())
}

/// Whether a file is listed with its line and just its bytes.
pub fn has_bytes<X: Threads + Wait + Sync>(
    rt: &X,
    alloc: Global,
    dev: &mut MemoryDevice,
    body: &Body,
) -> Result<bool, Fail> {
    let words = ["list", "image", body.path];
    let listed = printed(rt, alloc, &words, dev, "", 0)?;
    let wanted = listing_of(alloc, body)?;
    Ok(listed.as_slice() == wanted.as_bytes())
}

// What is listed of a file: its line, its bytes and a newline.
fn listing_of(alloc: Global, body: &Body) -> Result<String, Fail> {
    let mut text = String::from_str(alloc, body.line)?;
    for &(part, times) in body.pieces {
        push(&mut text, part, times)?;
    }
    text.push_str("\n")?;
    Ok(text)
}

// Appends a text as often as it stands there.
fn push(text: &mut String, part: &str, times: u32) -> Result<(), Fail> {
    for _ in 0..times {
        text.push_str(part)?;
    }
    Ok(())
}

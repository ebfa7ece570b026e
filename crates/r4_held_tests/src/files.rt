//! The volume with two files, and what is looked at.

use r4_outside::MemoryDevice;
use r4_run_testing::{RUN, fresh, printed};
use std::alloc::Global;
use std::process::Abort;
use std::sync::Wait;
use std::test::Fail;
use std::thread::Threads;

/// Makes `/a` and `/b` of 16,384 bytes each, in tails: so a leaf with byte 8,192 of one of them has bytes
/// of that file alone.
pub const IN_TAILS: &str = "\
script\n\
create /a\n\
fill /a 0 16384 97\n\
create /b\n\
fill /b 0 16384 98\n";

/// Makes them of 20,480 bytes each, in extents: so each block has bytes of one file alone.
pub const IN_EXTENTS: &str = "\
script\n\
create /a\n\
fill /a 0 20480 97\n\
create /b\n\
fill /b 0 20480 98\n";

/// A volume of 1,024 blocks, on which an earlier run made the two files by a script.
pub fn two_files<X: Threads + Wait + Sync>(
    rt: &X,
    alloc: Global,
    made: &str,
) -> Result<MemoryDevice, Fail> {
    let mut dev = fresh(rt, alloc, 1024)?;
    let _ = printed(rt, alloc, &RUN, &mut dev, made, 0)?;
    Ok(dev)
}

/// Ends the test unless a call with these words and scripts goes well and prints just this.
pub fn prints<X: Abort + Threads + Wait + Sync>(
    rt: &X,
    alloc: Global,
    words: &[&str],
    dev: &mut MemoryDevice,
    text: &str,
    wanted: &str,
) -> Result<(), Fail> {
    let told = printed(rt, alloc, words, dev, text, 0)?;
    let told = String::from_utf8_lossy(alloc, &told)?;
    assert_eq!(rt; told.as_str(), wanted);
    Ok(())
}

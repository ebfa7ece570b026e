//! Bytes of an image that are changed, and what is printed of a run.

use r4_base::{Block, BlockNo};
use r4_outside::{Device, MemoryDevice};
use r4_run_testing::{RUN, printed};
use std::alloc::Global;
use std::process::Abort;
use std::sync::Wait;
use std::test::Fail;
use std::thread::Threads;

/// A place in an image, its block and the byte in it, and what is put there.
pub type Change<'a> = (u64, usize, &'a [u8]);

/// Makes changes in the image of a device.
pub fn change(alloc: Global, dev: &mut MemoryDevice, changes: &[Change<'_>]) -> Result<(), Fail> {
    let mut block = Block::zeroed(alloc)?;
    for &(at, place, bytes) in changes {
        put(dev, &mut block, at, place, bytes)?;
    }
    Ok(())
}

// Puts bytes into a block of the device, by way of `block`.
fn put(
    dev: &mut MemoryDevice,
    block: &mut Block,
    at: u64,
    place: usize,
    bytes: &[u8],
) -> Result<(), Fail> {
    if at >= dev.blocks()? {
        return Err(Fail::from("there is no such block"));
    }
    dev.read(BlockNo(at), block)?;
    set(block.bytes_mut(), place, bytes);
    dev.write(BlockNo(at), block)?;
    Ok(())
}

// Puts these bytes over others from a place on, as far as there are some.
fn set(bytes: &mut [u8], from: usize, put: &[u8]) {
    let mut at = from;
    for byte in put {
        if let Some(there) = bytes.get_mut(at) {
            *there = *byte;
        }
        at = at.saturating_add(1);
    }
}

/// Ends the test unless a run of these scripts goes well and prints just this.
pub fn runs_so<X: Abort + Threads + Wait + Sync>(
    rt: &X,
    alloc: Global,
    dev: &mut MemoryDevice,
    text: &str,
    wanted: &str,
) -> Result<(), Fail> {
    let told = printed(rt, alloc, &RUN, dev, text, 0)?;
    let told = String::from_utf8_lossy(alloc, &told)?;
    assert_eq!(rt; told.as_str(), wanted);
    Ok(())
}

/// Ends the test unless a call that only reads goes well and prints just these bytes.
pub fn prints<X: Abort + Threads + Wait + Sync>(
    rt: &X,
    alloc: Global,
    words: &[&str],
    dev: &mut MemoryDevice,
    wanted: &[u8],
) -> Result<(), Fail> {
    let told = printed(rt, alloc, words, dev, "", 0)?;
    if told.as_slice() != wanted {
        let text = String::from_utf8_lossy(alloc, &told)?;
        let wanted = String::from_utf8_lossy(alloc, wanted)?;
        assert_eq!(rt; text.as_str(), wanted.as_str());
    }
    Ok(())
}

//! The program's call, status by status.

use crate::counting::CountingDevice;
use crate::same::{same, same_in};
use r4_outside::{Device, MemoryDevice, MemorySink};
use r4_testing::{REPLAY, call};
use std::alloc::Global;
use std::process::Abort;
use std::test::Fail;

// Calls the program, and looks at its status and at what it writes, in this row of a table.
fn answers<D: Device, X: Abort>(
    rt: &X,
    alloc: Global,
    words: &[&str],
    dev: &mut D,
    status: u8,
    text: &str,
    row: usize,
) -> Result<(), Fail> {
    let mut out = MemorySink::new(alloc, 100)?;
    let code = call(alloc, words, dev, &mut out)?;
    same_in(rt, &code, &status, row);
    same_in(rt, &out.written(), &text.as_bytes(), row);
    Ok(())
}

// Replays a device twice, the second time behind a reference.
fn call_twice(
    alloc: Global,
    mut dev: &mut MemoryDevice,
    out: &mut MemorySink,
) -> Result<[u8; 2], Fail> {
    let first = call(alloc, &REPLAY, dev, out)?;
    let again = call(alloc, &REPLAY, &mut dev, out)?;
    Ok([first, again])
}

// Looks at what two replays of an empty log tell.
fn is_replayed_twice<X: Abort>(
    rt: &X,
    alloc: Global,
    dev: &mut MemoryDevice,
    out: &mut MemorySink,
) -> Result<(), Fail> {
    same(rt, &call_twice(alloc, dev, out)?, &[0, 0], "statuses");
    let lines = b"replayed 0\nreplayed 0\n";
    same(rt, &out.written(), &lines.as_slice(), "text");
    same(rt, &dev.clock(), &0, "clock");
    Ok(())
}

#[test]
fn an_empty_log_is_replayed(rt: HostRuntime) -> Result<(), Fail> {
    let mut dev = MemoryDevice::new(rt.alloc(), 64)?;
    let mut out = MemorySink::new(rt.alloc(), 100)?;
    is_replayed_twice(&rt, rt.alloc(), &mut dev, &mut out)
}

// How many blocks a device says that it has, unless it fails to; its counts; the status and the line.
static WITHOUT_BLOCKS: [(u64, bool, u64, u8, &str); 4] = [
    (63, false, 5, 8, "size: 63 blocks\n"),
    (1_048_577, false, 5, 8, "size: 1048577 blocks\n"),
    (64, true, 0, 6, "device: clock 0 faults 1\n"),
    (
        64,
        true,
        u64::MAX,
        6,
        "device: clock 18446744073709551615 faults 18446744073709551615\n",
    ),
];

#[test]
fn devices_without_blocks(rt: HostRuntime) -> Result<(), Fail> {
    for (row, &(blocks, fails, counts, status, line)) in WITHOUT_BLOCKS.iter().enumerate() {
        let mut dev = CountingDevice {
            blocks,
            fails,
            clock: counts,
            faults: counts,
        };
        answers(&rt, rt.alloc(), &REPLAY, &mut dev, status, line, row)?;
        same_in(&rt, &dev.clock(), &counts, row);
    }
    Ok(())
}

#[test]
fn a_closed_sink_is_told(rt: HostRuntime) -> Result<(), Fail> {
    let mut dev = MemoryDevice::new(rt.alloc(), 64)?;
    let mut closed = MemorySink::new(rt.alloc(), 100)?;
    closed.fail(rt.alloc(), 1)?;
    finds_it_closed(&rt, rt.alloc(), &mut dev, &mut closed)
}

// Replays a device to a sink that is closed.
fn finds_it_closed<X: Abort>(
    rt: &X,
    alloc: Global,
    dev: &mut MemoryDevice,
    closed: &mut MemorySink,
) -> Result<(), Fail> {
    let code = call(alloc, &REPLAY, dev, closed)?;
    same(rt, &code, &5, "status");
    same(rt, &closed.written(), &b"".as_slice(), "text");
    Ok(())
}

#[test]
fn a_broken_device_is_told(rt: HostRuntime) -> Result<(), Fail> {
    let mut dev = MemoryDevice::new(rt.alloc(), 64)?;
    dev.fail(rt.alloc(), 1)?;
    let line = "device: clock 0 faults 1\n";
    answers(&rt, rt.alloc(), &REPLAY, &mut dev, 6, line, 0)?;
    same(&rt, &dev.clock(), &0, "clock");
    Ok(())
}

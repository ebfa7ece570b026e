//! A read that fails, in the opening and behind it.

use crate::files::{IN_TAILS, two_files};
use r4_outside::{MemoryDevice, MemorySink};
use r4_run_testing::{RUN, call};
use std::alloc::Global;
use std::process::Abort;
use std::sync::Wait;
use std::test::Fail;
use std::thread::Threads;

// The call of the device that is the first read behind the opening, counted from the one that makes it:
// 42 make the volume and its files, and five open it.
const FIRST_READ: u64 = 48;

const WRITES: &str = "\
script\n\
write /a 8192 XY\n\
commit\n\
script\n\
write /b 8192 XY\n\
commit\n";

// The volume is not opened.
const UNOPENED: &str = "device: clock 35 faults 1\n";

// The first command is refused, at the root's block, and all else goes on.
const REFUSED: &str = "\
refused t0 s1 c1 readfault 22 1\n\
begin t1 s2\n\
done t1 s2 c1 ok\n\
ended t1\n\
acked s1 t0\n\
sealed a1\n\
committed a1\n\
acked s2 t1\n";

// A run of which this call of the device fails has this status, and prints this.
fn ends_so<X: Abort + Threads + Wait + Sync>(
    rt: &X,
    alloc: Global,
    nth: u64,
    code: u8,
    wanted: &str,
) -> Result<(), Fail> {
    let mut dev = two_files(rt, alloc, IN_TAILS)?;
    dev.fail(alloc, nth)?;
    runs_so(rt, alloc, &mut dev, code, wanted)
}

// A run has this status, and prints this.
fn runs_so<X: Abort + Threads + Wait + Sync>(
    rt: &X,
    alloc: Global,
    dev: &mut MemoryDevice,
    code: u8,
    wanted: &str,
) -> Result<(), Fail> {
    let mut out = MemorySink::new(alloc, 1000)?;
    let status = call(rt, alloc, &RUN, dev, WRITES, &mut out)?;
    assert_eq!(rt; status, code);
    let told = String::from_utf8_lossy(alloc, out.written())?;
    assert_eq!(rt; told.as_str(), wanted);
    Ok(())
}

#[test]
fn first_read_that_fails_is_told(rt: HostRuntime) -> Result<(), Fail> {
    ends_so(&rt, rt.alloc(), FIRST_READ - 1, 6, UNOPENED)?;
    ends_so(&rt, rt.alloc(), FIRST_READ, 0, REFUSED)
}

//! A generated workload in place of scripts.

use r4_outside::MemoryDevice;
use r4_run_testing::{LIST, fresh, printed};
use std::alloc::Global;
use std::sync::Wait;
use std::test::Fail;
use std::thread::Threads;

static WORKLOAD: [&str; 4] = ["run", "image", "--gen", "7"];

// A text that is no job.
const NO_JOB: &str = "frob\n";

// The size in a line of a listing, which is a file's or a directory's: 0 for a directory.
fn size_in(line: &str) -> u64 {
    let size = line
        .split(' ')
        .nth(5)
        .and_then(|word| word.parse::<u64>().ok());
    match line.starts_with('f') {
        true => size.unwrap_or(0),
        false => 0,
    }
}

// How the summary of what is listed begins.
fn summary_of(alloc: Global, listed: &str) -> Result<String, Fail> {
    let (mut objects, mut bytes) = (0u64, 0u64);
    for line in listed.lines() {
        objects = objects.saturating_add(1);
        bytes = bytes.saturating_add(size_in(line));
    }
    Ok(format!(in alloc; "gen 7: objects {objects} bytes {bytes} refused ")?)
}

// Whether the summary of a run on a fresh volume is that of what is listed then.
fn is_summed_up<X: Threads + Wait + Sync>(rt: &X, alloc: Global) -> Result<bool, Fail> {
    let mut dev = fresh(rt, alloc, 64)?;
    let told = printed(rt, alloc, &WORKLOAD, &mut dev, NO_JOB, 0)?;
    let listed = printed(rt, alloc, &LIST, &mut dev, "", 0)?;
    let Ok(listed) = str::from_utf8(listed.as_slice()) else {
        return Ok(false);
    };
    let summary = summary_of(alloc, listed)?;
    Ok(told.starts_with(summary.as_bytes()) && told.ends_with(b"\n"))
}

#[test]
fn summary_of_a_workload_is_that_of_its_volume(rt: HostRuntime) -> Result<(), Fail> {
    assert!(&rt; is_summed_up(&rt, rt.alloc())?);
    Ok(())
}

// The text of the source is no matter.
#[test]
fn scripts_are_not_read_beside_a_workload(rt: HostRuntime) -> Result<(), Fail> {
    let mut dev = MemoryDevice::plain(rt.alloc(), 63)?;
    let told = printed(&rt, rt.alloc(), &WORKLOAD, &mut dev, NO_JOB, 8)?;
    assert_eq!(&rt; told.as_slice(), b"size: 63 blocks\n".as_slice());
    Ok(())
}

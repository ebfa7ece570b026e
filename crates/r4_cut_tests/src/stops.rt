//! A run on a device that stops behind each of its writes.

use r4_devices::StopDevice;
use r4_outside::{MemoryDevice, MemorySink};
use r4_run_testing::{LIST, REPLAY, RUN, call, fresh, printed};
use std::alloc::Global;
use std::sync::Wait;
use std::test::Fail;
use std::thread::Threads;

const TEXT: &str = "script\ncreate /a\ncommit\nwrite /a 0 x\n";

// What is listed before the first atom, behind it and behind the second.
static STATES: [&str; 3] = [
    "d 0755 2 0 0 0 /\n",
    "d 0755 2 0 0 1 /\nf 0644 1 0 0 0 /a\n",
    "d 0755 2 0 0 1 /\nf 0644 1 0 0 1 /a\n",
];

// How many commits a text tells.
fn committed(told: &[u8]) -> usize {
    told.split(|&byte| byte == b'\n')
        .filter(|line| line.starts_with(b"committed "))
        .count()
}

// The status of a run, and how many commits it tells.
fn run<X: Threads + Wait + Sync>(
    rt: &X,
    alloc: Global,
    dev: &mut StopDevice<MemoryDevice>,
) -> Result<(u8, usize), Fail> {
    let mut out = MemorySink::new(alloc, 1000)?;
    let status = call(rt, alloc, &RUN, dev, TEXT, &mut out)?;
    Ok((status, committed(out.written())))
}

// Which of the states is left once the image is replayed.
fn state_left<X: Threads + Wait + Sync>(
    rt: &X,
    alloc: Global,
    dev: &mut MemoryDevice,
) -> Result<Option<usize>, Fail> {
    let mut line = MemorySink::new(alloc, 100)?;
    let _ = call(rt, alloc, &REPLAY, dev, "", &mut line)?;
    let listed = printed(rt, alloc, &LIST, dev, "", 0)?;
    Ok(
        STATES
            .iter()
            .position(|state| state.as_bytes() == listed.as_slice()),
    )
}

// The status of a run on a device that stops behind so many writes, how many commits it tells, and
// which of the states is left once the image is replayed.
fn stopped<X: Threads + Wait + Sync>(
    rt: &X,
    alloc: Global,
    writes: u64,
    tear: u8,
) -> Result<(u8, usize, Option<usize>), Fail> {
    let below = fresh(rt, alloc, 64)?;
    let Ok(mut dev) = StopDevice::new(alloc, below, writes, tear, None) else {
        return Err(Fail::from("no memory for a torn write"));
    };
    let (status, told) = run(rt, alloc, &mut dev)?;
    let mut below = dev.into_inner();
    Ok((status, told, state_left(rt, alloc, &mut below)?))
}

#[test]
fn whole_atoms_are_left_wherever_the_device_stops(rt: HostRuntime) -> Result<(), Fail> {
    for writes in 0..=20u64 {
        let tear = if writes % 2 == 0 { 254 } else { 1 };
        let (status, told, state) = stopped(&rt, rt.alloc(), writes, tear)?;
        let whole = state == Some(told) || state == Some(told.saturating_add(1));
        assert!(&rt; whole, "{writes}: {told} {state:?}");
        assert!(&rt;
            status == 6 || (status == 0 && told == 2),
            "{writes}: {status} {told}"
        );
    }
    Ok(())
}

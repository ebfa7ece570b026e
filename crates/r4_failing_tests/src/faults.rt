//! Sources, sinks and devices that fail, and images that are none.

use r4_outside::{MemoryDevice, MemorySink, MemorySource, Unnamed};
use r4_run_testing::{LIST, REPLAY, RUN, Slow, call, fresh, printed, r4_main};
use std::alloc::Global;
use std::process::Abort;
use std::sync::Wait;
use std::test::Fail;
use std::thread::Threads;

const TEXT: &str = "script\ncreate /a\ncommit\nstat /\n";

const TOLD: &str = "begin t1 s1\ndone t1 s1 c1 ok\nended t1\nsealed a1\n";

#[test]
fn image_that_is_none_is_refused(rt: HostRuntime) -> Result<(), Fail> {
    let mut dev = MemoryDevice::plain(rt.alloc(), 64)?;
    let told = printed(&rt, rt.alloc(), &RUN, &mut dev, "", 7)?;
    assert_eq!(&rt; told.as_slice(), b"image: block 16: magic\n".as_slice());
    Ok(())
}

#[test]
fn small_device_is_refused(rt: HostRuntime) -> Result<(), Fail> {
    let mut dev = MemoryDevice::plain(rt.alloc(), 63)?;
    let told = printed(&rt, rt.alloc(), &RUN, &mut dev, "", 8)?;
    assert_eq!(&rt; told.as_slice(), b"size: 63 blocks\n".as_slice());
    Ok(())
}

// The status of a run of the scripts of a source.
fn run_from<X: Threads + Wait + Sync>(
    rt: &X,
    alloc: Global,
    dev: &mut MemoryDevice,
    script: &mut MemorySource,
    out: &mut MemorySink,
) -> Result<u8, Fail> {
    let words = [
        String::from_str(alloc, "run")?,
        String::from_str(alloc, "image")?,
    ];
    let (gate, run) = (&Slow::open(), Unnamed::new());
    Ok(r4_main(rt, alloc, &words, dev, script, out, gate, run).code)
}

// Runs the scripts of a source that fails.
fn is_told<X: Abort + Threads + Wait + Sync>(
    rt: &X,
    alloc: Global,
    dev: &mut MemoryDevice,
    script: &mut MemorySource,
) -> Result<(), Fail> {
    let mut out = MemorySink::new(alloc, 100)?;
    let code = run_from(rt, alloc, dev, script, &mut out)?;
    assert_eq!(rt; code, 4);
    assert_eq!(rt; out.written(), b"source: faults 1\n".as_slice());
    Ok(())
}

#[test]
fn source_that_fails_is_told(rt: HostRuntime) -> Result<(), Fail> {
    let mut dev = fresh(&rt, rt.alloc(), 64)?;
    let mut script = MemorySource::new(rt.alloc(), TEXT.as_bytes())?;
    script.fail(rt.alloc(), 1)?;
    is_told(&rt, rt.alloc(), &mut dev, &mut script)
}

// The status of a run of which this write to the sink fails.
fn run_unheard<X: Threads + Wait + Sync>(
    rt: &X,
    alloc: Global,
    dev: &mut MemoryDevice,
    nth: u64,
) -> Result<u8, Fail> {
    let mut out = MemorySink::new(alloc, 100)?;
    out.fail(alloc, nth)?;
    call(rt, alloc, &RUN, dev, TEXT, &mut out)
}

// Looks whether the volume is listed with its file.
fn lists_file<X: Abort + Threads + Wait + Sync>(
    rt: &X,
    alloc: Global,
    dev: &mut MemoryDevice,
) -> Result<(), Fail> {
    let listed = printed(rt, alloc, &LIST, dev, "", 0)?;
    assert_eq!(rt;
        listed.as_slice(),
        b"d 0755 2 0 0 1 /\nf 0644 1 0 0 0 /a\n".as_slice()
    );
    Ok(())
}

// A sink whose first or second write fails has no line, or one, and the volume has the file all the same.
#[test]
fn sink_that_fails_leaves_the_volume(rt: HostRuntime) -> Result<(), Fail> {
    for nth in 1..=2u64 {
        let mut dev = fresh(&rt, rt.alloc(), 64)?;
        assert_eq!(&rt; run_unheard(&rt, rt.alloc(), &mut dev, nth)?, 5);
        lists_file(&rt, rt.alloc(), &mut dev)?;
    }
    Ok(())
}

// The status of a run on a device of which a call fails, and what is printed.
fn failing<X: Threads + Wait + Sync>(
    rt: &X,
    alloc: Global,
    dev: &mut MemoryDevice,
    nth: u64,
) -> Result<(u8, Vec<u8>), Fail> {
    dev.fail(alloc, nth)?;
    let mut out = MemorySink::new(alloc, 1000)?;
    let status = call(rt, alloc, &RUN, dev, TEXT, &mut out)?;
    Ok((status, out.written().to_vec(alloc)?))
}

// After replay the volume of the run, whichever of its calls failed, is that before or behind it.
fn is_whole<X: Threads + Wait + Sync>(
    rt: &X,
    alloc: Global,
    dev: &mut MemoryDevice,
) -> Result<bool, Fail> {
    let mut out = MemorySink::new(alloc, 100)?;
    let _ = call(rt, alloc, &REPLAY, dev, "", &mut out)?;
    let listed = printed(rt, alloc, &LIST, dev, "", 0)?;
    let (before, after) = (
        "d 0755 2 0 0 0 /\n",
        "d 0755 2 0 0 1 /\nf 0644 1 0 0 0 /a\n",
    );
    Ok(listed.as_slice() == before.as_bytes() || listed.as_slice() == after.as_bytes())
}

// Looks at what is told of a commit that broke.
fn tells_break<X: Abort>(rt: &X, told: &[u8], nth: u64) {
    assert!(rt; !has_line(told, b"acked "), "{nth}");
    assert!(rt; has_line(told, b"refused t0 s1 c3 reopen "), "{nth}");
    assert!(rt; has_line(told, b"device: clock "), "{nth}");
}

// Looks at a run of which a call of the device fails: whether its commit broke.
fn breaks<X: Abort + Threads + Wait + Sync>(
    rt: &X,
    alloc: Global,
    dev: &mut MemoryDevice,
    nth: u64,
) -> Result<bool, Fail> {
    let (status, told) = failing(rt, alloc, dev, nth)?;
    assert!(rt; status == 0 || status == 6, "{nth}: {status}");
    let broke = told.starts_with(TOLD.as_bytes()) && status == 6;
    if broke {
        tells_break(rt, &told, nth);
    }
    Ok(broke)
}

// The same on a fresh volume, which is whole behind it.
fn breaks_whole<X: Abort + Threads + Wait + Sync>(
    rt: &X,
    alloc: Global,
    nth: u64,
) -> Result<bool, Fail> {
    let mut dev = fresh(rt, alloc, 64)?;
    let broke = breaks(rt, alloc, &mut dev, nth)?;
    assert!(rt; is_whole(rt, alloc, &mut dev)?, "{nth}");
    Ok(broke)
}

// Each call of the device fails in turn, from the first behind those that made the volume. Where one
// fails as the volume is opened, its line is all that is printed. Where a read fails behind that, its
// command is refused, and the run goes on. Where a call of the commit fails, the trace tells that it
// broke, what was left is refused, and nothing is acknowledged.
#[test]
fn failing_calls_are_told(rt: HostRuntime) -> Result<(), Fail> {
    let mut broken = 0u32;
    for nth in 11..33u64 {
        if breaks_whole(&rt, rt.alloc(), nth)? {
            broken = broken.saturating_add(1);
        }
    }
    assert_eq!(&rt; broken, 14);
    Ok(())
}

// What is told where the sync behind the journal header's write fails, which is the eighth call that
// changes the volume, behind ten that made it.
const BROKEN: &str = "\
begin t1 s1\n\
done t1 s1 c1 ok\n\
ended t1\n\
sealed a1\n\
broken 18 1\n\
refused t0 s1 c2 reopen 18\n\
refused t0 s1 c3 reopen 18\n\
device: clock 18 faults 1\n";

#[test]
fn failing_sync_of_the_header_is_told(rt: HostRuntime) -> Result<(), Fail> {
    let mut dev = fresh(&rt, rt.alloc(), 64)?;
    let (status, told) = failing(&rt, rt.alloc(), &mut dev, 25)?;
    assert_eq!(&rt; status, 6);
    assert_eq!(&rt; told.as_slice(), BROKEN.as_bytes());
    Ok(())
}

// Whether a line begins so.
fn has_line(told: &[u8], word: &[u8]) -> bool {
    told.split(|&byte| byte == b'\n')
        .any(|line| line.starts_with(word))
}

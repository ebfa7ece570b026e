//! A run whose beginning is named: what its contract says then is met and can be used.

ghost use Rattle.std.specs.Prelude.{IfOk};
ghost use Rattle.r4_outside.specs.Device.{IsQuiet};
ghost use Rattle.r4_outside.specs.Memory.{memory_state};
ghost use Rattle.r4_outside.specs.MemoryText.{sink_state};
ghost use Rattle.r4_named_tests.specs.Named.{LeavesWhole};

use r4_mkfs::mkfs;
use r4_outside::{MemoryDevice, MemorySink, MemorySource, Named, NamedNew, OpenGate};
use r4_run::run_scripts;
use std::alloc::Global;
use std::sync::Wait;
use std::test::Fail;
use std::thread::Threads;

// Runs scripts on a quiet device in memory. At status 0 the device has the volume that all atoms of a whole
// run of them made of its image's, and just the text of the trace was printed.
fn run_named<X: Threads + Wait + Sync>(
    rt: &X,
    alloc: Global,
    dev: &mut MemoryDevice,
    text: &[u8],
    out: &mut MemorySink,
) -> Result<u8, Fail>
    requires quiet { IsQuiet (memory_state dev.old) }
    ensures whole { IfOk result (LeavesWhole text.now (memory_state dev.old) (memory_state dev.new)
        (sink_state out.old) (sink_state out.new)) }
{
    let mut script = MemorySource::new(alloc, text)?;
    let gate = &OpenGate;
    Ok(run_scripts(
        rt,
        alloc,
        2,
        None,
        dev,
        &mut script,
        out,
        gate,
        Named::new(),
    ))
}

// A volume that is made on a device which tells what crashes leave, and is quiet then.
fn quiet_volume(alloc: Global) -> Result<MemoryDevice, Fail>
    ensures { IfOk result (λ d. IsQuiet (memory_state d)) }
{
    let mut dev = MemoryDevice::new(alloc, 64)?;
    match mkfs(alloc, &mut dev, b"") {
        Ok(_) => Ok(dev),
        Err(_) => Err(Fail::from("no volume is made")),
    }
}

#[test]
fn run_whose_beginning_is_named_is_whole(rt: HostRuntime) -> Result<(), Fail> {
    let alloc = rt.alloc();
    let mut dev = quiet_volume(alloc)?;
    let mut out = MemorySink::new(alloc, 100)?;
    let text = b"script\ncreate /a\ncommit\n";
    assert_eq!(&rt; run_named(&rt, alloc, &mut dev, text, &mut out)?, 0);
    assert!(&rt; out.written().ends_with(b"acked s1 t1\n"));
    Ok(())
}

//! The program's call, over memory.

ghost use Rattle.r4_outside.specs.Device.{Goes};

use crate::gate::Slow;
use r4_outside::{Device, MemoryDevice, MemorySink, MemorySource, Unnamed};
use r4_top::r4_main;
use std::alloc::Global;
use std::sync::Wait;
use std::test::Fail;
use std::thread::Threads;

/// The words that run scripts by one thread.
pub const RUN: [&str; 2] = ["run", "image"];

/// Those that list the root.
pub const LIST: [&str; 2] = ["list", "image"];

/// Those that replay the log.
pub const REPLAY: [&str; 2] = ["replay", "image"];

/// Calls the program with these words and this text of scripts, and gives its status.
pub fn call<D: Device, X: Threads + Wait + Sync>(
    rt: &X,
    alloc: Global,
    words: &[&str],
    dev: &mut D,
    text: &str,
    out: &mut MemorySink,
) -> Result<u8, Fail>
    ensures { Goes (D.state dev.old) (D.state dev.new) }
{
    let gate = Slow::open();
    call_at(rt, alloc, &gate, words, dev, text, out)
}

/// The same, where tasks pass this gate.
pub fn call_at<D: Device, X: Threads + Wait + Sync>(
    rt: &X,
    alloc: Global,
    gate: &Slow,
    words: &[&str],
    dev: &mut D,
    text: &str,
    out: &mut MemorySink,
) -> Result<u8, Fail>
    ensures { Goes (D.state dev.old) (D.state dev.new) }
{
    let mut owned = Vec::new(alloc);
    for word in words {
        owned.push(String::from_str(alloc, word)?)?;
    }
    let mut script = MemorySource::new(alloc, text.as_bytes())?;
    let run = Unnamed::new();
    Ok(r4_main(rt, alloc, &owned, dev, &mut script, out, gate, run).code)
}

/// What the program prints, with its status, which is the wanted one.
pub fn printed<D: Device, X: Threads + Wait + Sync>(
    rt: &X,
    alloc: Global,
    words: &[&str],
    dev: &mut D,
    text: &str,
    status: u8,
) -> Result<Vec<u8>, Fail>
    ensures { Goes (D.state dev.old) (D.state dev.new) }
{
    let mut out = MemorySink::new(alloc, 1000)?;
    if call(rt, alloc, words, dev, text, &mut out)? != status {
        return Err(Fail::from("another status"));
    }
    Ok(out.written().to_vec(alloc)?)
}

/// A fresh volume of so many blocks.
pub fn fresh<X: Threads + Wait + Sync>(
    rt: &X,
    alloc: Global,
    blocks: u64,
) -> Result<MemoryDevice, Fail> {
    let mut dev = MemoryDevice::plain(alloc, blocks)?;
    let _ = printed(rt, alloc, &["mkfs", "image"], &mut dev, "", 0)?;
    Ok(dev)
}

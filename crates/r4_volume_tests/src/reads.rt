//! Which blocks are read, and in which order: each once.

use crate::same::same;
use r4_base::{Block, BlockNo};
use r4_outside::{Device, Failed, MemoryDevice, MemorySink};
use r4_testing::call;
use std::alloc::Global;
use std::process::Abort;
use std::test::Fail;

// A device that notes which blocks of the one below are read, as far as there is memory.
#[derive(Drop)]
struct NotingDevice<D: Device> {
    dev: D,
    reads: Vec<u64>,
}

impl<D: Device> Device for NotingDevice<D> {
    ghost state = { λ d. D.state d.dev };

    fn blocks(&mut self) -> Result<u64, Failed> {
        self.dev.blocks()
    }

    fn read(&mut self, at: BlockNo, into: &mut Block) -> Result<(), Failed> {
        let _ = self.reads.push(at.0);
        self.dev.read(at, into)
    }

    fn write(&mut self, at: BlockNo, from: &Block) -> Result<(), Failed> {
        self.dev.write(at, from)
    }

    fn sync(&mut self) -> Result<(), Failed> {
        self.dev.sync()
    }

    fn clock(&self) -> u64 {
        self.dev.clock()
    }

    fn faults(&self) -> u64 {
        self.dev.faults()
    }
}

// A fresh volume, made by the words.
fn volume<X: Abort>(rt: &X, alloc: Global) -> Result<NotingDevice<MemoryDevice>, Fail> {
    let mut dev = MemoryDevice::plain(alloc, 64)?;
    let mut out = MemorySink::new(alloc, 100)?;
    let code = call(alloc, &["mkfs", "image"], &mut dev, &mut out)?;
    same(rt, &code, &0, "made");
    let reads = Vec::new(alloc);
    Ok(NotingDevice { dev, reads })
}

// What is read of a fresh volume for these words.
fn reads<X: Abort>(
    rt: &X,
    alloc: Global,
    words: &[&str],
    what: &str,
    wanted: &[u64],
) -> Result<(), Fail> {
    let mut dev = volume(rt, alloc)?;
    let mut out = MemorySink::new(alloc, 100)?;
    let code = call(alloc, words, &mut dev, &mut out)?;
    same(rt, &code, &0, what);
    same(rt, &dev.reads.as_slice(), &wanted, what);
    Ok(())
}

// Header, footer, superblocks, bitmap, root node and leaf.
#[test]
fn each_block_is_read_once(rt: HostRuntime) -> Result<(), Fail> {
    let alloc = rt.alloc();
    let all = [19u64, 20, 16, 17, 18, 22, 23];
    reads(&rt, alloc, &["replay", "image"], "replay", &all[..2])?;
    reads(&rt, alloc, &["list", "image"], "list", &all)?;
    reads(&rt, alloc, &["check", "image"], "check", &all)
}

//! A device that keeps what is written to it.

use r4_base::{Block, BlockNo};
use r4_outside::{Device, Failed, MemoryDevice};
use std::alloc::Global;

/// A call that is kept.
#[derive(Drop)]
pub enum Call {
    Wrote(u64, Block),
    Synced,
}

/// A device in memory, and the writes and syncs in their order. A call for which there is no memory is not kept.
#[derive(Drop)]
pub struct Tape {
    alloc: Global,
    dev: MemoryDevice,
    calls: Vec<Call>,
}

impl Tape {
    pub fn new(alloc: Global, dev: MemoryDevice) -> Tape {
        Tape {
            alloc,
            dev,
            calls: Vec::new(alloc),
        }
    }

    pub fn into_calls(self) -> Vec<Call> {
        let Tape {
            alloc: _,
            dev: _,
            calls,
        } = self;
        calls
    }
}

impl Device for Tape {
    ghost use Rattle.r4_outside.specs.Memory.{memory_state};

    ghost state = { λ d. memory_state d.dev };

    fn blocks(&mut self) -> Result<u64, Failed> {
        self.dev.blocks()
    }

    fn read(&mut self, at: BlockNo, into: &mut Block) -> Result<(), Failed> {
        self.dev.read(at, into)
    }

    fn write(&mut self, at: BlockNo, from: &Block) -> Result<(), Failed> {
        if let Ok(block) = from.copy(self.alloc) {
            let _ = self.calls.push(Call::Wrote(at.0, block));
        }
        self.dev.write(at, from)
    }

    fn sync(&mut self) -> Result<(), Failed> {
        let _ = self.calls.push(Call::Synced);
        self.dev.sync()
    }

    fn clock(&self) -> u64 {
        self.dev.clock()
    }

    fn faults(&self) -> u64 {
        self.dev.faults()
    }
}

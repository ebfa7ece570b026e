//! A device that notes what is read.

use r4_base::{Block, BlockNo};
use r4_outside::{Device, Failed, MemoryDevice};
use std::alloc::Global;

/// A device that notes the blocks that are read, in their order, and how many of the reads were of
/// a block that had been read before.
#[derive(Drop)]
pub struct Counting {
    pub device: MemoryDevice,
    pub reads: Vec<u64>,
    pub again: u64,
}

impl Counting {
    /// The device, of which nothing was read.
    pub fn new(alloc: Global, device: MemoryDevice) -> Counting {
        Counting {
            device,
            reads: Vec::new(alloc),
            again: 0,
        }
    }
}

impl Device for Counting {
    ghost use Rattle.r4_outside.specs.Memory.{memory_state};

    ghost state = { λ d. memory_state d.device };

    fn blocks(&mut self) -> Result<u64, Failed> {
        self.device.blocks()
    }

    fn read(&mut self, at: BlockNo, into: &mut Block) -> Result<(), Failed> {
        if self.reads.contains(&at.0) {
            self.again = self.again.saturating_add(1);
        }
        let _ = self.reads.push(at.0);
        self.device.read(at, into)
    }

    fn write(&mut self, at: BlockNo, from: &Block) -> Result<(), Failed> {
        self.device.write(at, from)
    }

    fn sync(&mut self) -> Result<(), Failed> {
        self.device.sync()
    }

    fn clock(&self) -> u64 {
        self.device.clock()
    }

    fn faults(&self) -> u64 {
        self.device.faults()
    }
}

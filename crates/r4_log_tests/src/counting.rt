//! A device that holds no block and only counts.

ghost use Rattle.std.specs.Prelude.{◌≡◌, ◌≤◌};
ghost use Rattle.r4_outside.specs.Device.{next};

use r4_base::{Block, BlockNo};
use r4_outside::{Device, Failed};

/// It says how many blocks it has, unless it is to fail. Each other call fails.
#[derive(Drop)]
pub struct CountingDevice {
    pub blocks: u64,
    pub fails: bool,
    pub clock: u64,
    pub faults: u64,
}

fn count(number: &mut u64) -> Failed
    ensures next { number.new ≡ next number.old }
    ensures no_less { number.old ≤ number.new }
{
    *number = number.saturating_add(1);
    Failed
}

impl Device for CountingDevice {
    ghost use Rattle.r4_log_tests.specs.Counting.{counting_state};

    ghost state = { λ d. counting_state d.blocks d.clock d.faults };

    fn blocks(&mut self) -> Result<u64, Failed> {
        if self.fails {
            return Err(count(&mut self.faults));
        }
        Ok(self.blocks)
    }

    fn read(&mut self, _at: BlockNo, _into: &mut Block) -> Result<(), Failed> {
        Err(count(&mut self.faults))
    }

    fn write(&mut self, _at: BlockNo, _from: &Block) -> Result<(), Failed> {
        let _ = count(&mut self.clock);
        Err(count(&mut self.faults))
    }

    fn sync(&mut self) -> Result<(), Failed> {
        let _ = count(&mut self.clock);
        Err(count(&mut self.faults))
    }

    fn clock(&self) -> u64 {
        self.clock
    }

    fn faults(&self) -> u64 {
        self.faults
    }
}

//! How many blocks a volume may have, and what is answered where reading the log stops.

ghost use Rattle.std.specs.Prelude.{◌≡◌};
ghost use Rattle.r4_replay.specs.Replay.{IsDeviceFault, CountsBlocks};
ghost use Rattle.r4_replay.specs.Reading.{Idles, fault_by};

use crate::fault::{ReplayFault, Stop};
use r4_base::{BlockNo, is_lawful_count};
use r4_outside::Device;

/// The number of blocks of a device, where a volume may have as many.
pub fn lawful_blocks<D: Device>(dev: &mut D) -> Result<u64, ReplayFault>
    ensures idles { Idles (D.state dev.old) (D.state dev.new) }
    ensures counts { CountsBlocks (D.state dev.old) result (D.state dev.new) }
{
    let Ok(blocks) = dev.blocks() else {
        return Err(device_fault(dev));
    };
    if !is_lawful_count(blocks) {
        return Err(ReplayFault::Size { blocks });
    }
    Ok(blocks)
}

/// What is answered where reading the log, or putting it in place, stopped.
pub fn fault_of<D: Device>(dev: &D, stop: Stop) -> ReplayFault
    ensures { result ≡ fault_by (D.state dev.now).clock (D.state dev.now).faults stop }
{
    match stop {
        Stop::Failed => device_fault(dev),
        Stop::Memory => ReplayFault::Memory,
        Stop::Log { block, fault } => ReplayFault::Log {
            block: BlockNo(block),
            fault,
        },
    }
}

fn device_fault<D: Device>(dev: &D) -> ReplayFault
    ensures { IsDeviceFault (D.state dev.now) result }
{
    ReplayFault::Device {
        clock: dev.clock(),
        faults: dev.faults(),
    }
}

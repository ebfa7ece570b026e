//! The command `replay` (docs/program.md).

ghost use Rattle.std.specs.Prelude.{◌≡◌};
ghost use Rattle.r4_outside.specs.Device.{Goes, IsQuiet};
ghost use Rattle.r4_replay.specs.Replay.{SettlesAlways};
ghost use Rattle.r4_offline.specs.Answers.{Replays, TellsFault};

use crate::status::Status;
use r4_lines::{write_device, write_image, write_memory, write_replayed, write_size};
use r4_outside::{Device, Failed, Sink};
use r4_replay::{ReplayFault, replay};
use std::alloc::Global;

/// Puts the committed transactions of the image in place.
pub fn replay_image<D: Device, K: Sink>(alloc: Global, dev: &mut D, out: &mut K) -> Status
    ensures goes { Goes (D.state dev.old) (D.state dev.new) }
    ensures replays { Replays (D.state dev.old) (K.state out.old) result.code (D.state dev.new) (K.state out.new) }
    ensures any_moment { IsQuiet (D.state dev.old) → SettlesAlways (D.state dev.old) (D.state dev.new) }
{
    match replay(alloc, dev) {
        Ok(placed) => match write_replayed(out, placed.count) {
            Ok(()) => Status { code: 0 },
            Err(Failed) => Status { code: 5 },
        },
        Err(fault) => tell_fault(out, fault),
    }
}

// Prints why nothing, or not everything, was put in place. A sink that fails here does not change the status.
fn tell_fault<K: Sink>(out: &mut K, fault: ReplayFault) -> Status
    ensures { TellsFault fault result.code (K.state out.old) (K.state out.new) }
{
    match fault {
        ReplayFault::Device { clock, faults } => {
            let _ = write_device(out, clock, faults);
            Status { code: 6 }
        }
        ReplayFault::Log { block, fault } => {
            let _ = write_image(out, block, fault.word());
            Status { code: 7 }
        }
        ReplayFault::Size { blocks } => {
            let _ = write_size(out, blocks);
            Status { code: 8 }
        }
        ReplayFault::Memory => {
            let _ = write_memory(out);
            Status { code: 9 }
        }
    }
}

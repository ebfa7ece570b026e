//! The command `list` (docs/program.md).

ghost use Rattle.std.specs.Prelude.{◌≡◌, ◌≤◌, length};
ghost use Rattle.r4_outside.specs.Device.{Goes, IsQuiet};
ghost use Rattle.r4_replay.specs.Replay.{SettlesAlways};
ghost use Rattle.r4_offline.specs.Answers.{Lists, TellsListFault};

use crate::status::Status;
use r4_check_laws::{ListFault, list};
use r4_lines::{write_device, write_image, write_memory, write_size};
use r4_outside::{Device, Sink};
use std::alloc::Global;

/// Prints what is at a path of the volume, which begins with a slash.
pub fn print_listing<D: Device, K: Sink>(
    alloc: Global,
    path: &[u8],
    dev: &mut D,
    out: &mut K,
) -> Status
    requires { 1 ≤ length path.now }
    ensures goes { Goes (D.state dev.old) (D.state dev.new) }
    ensures lists { Lists path.now (D.state dev.old) (K.state out.old) result.code (D.state dev.new) (K.state out.new) }
    ensures any_moment { IsQuiet (D.state dev.old) → SettlesAlways (D.state dev.old) (D.state dev.new) }
{
    match list(alloc, dev, path, out) {
        Ok(()) => Status { code: 0 },
        Err(fault) => tell_fault(out, fault),
    }
}

/// Prints why a listing or a check ended early. A sink that fails here does not change the status.
pub(crate) fn tell_fault<K: Sink>(out: &mut K, fault: ListFault) -> Status
    ensures { TellsListFault fault result.code (K.state out.old) (K.state out.new) }
{
    match fault {
        ListFault::Log { block, fault } => {
            let _ = write_image(out, block, fault.word());
            Status { code: 7 }
        }
        ListFault::Image { block, fault } => {
            let _ = write_image(out, block, fault.word());
            Status { code: 7 }
        }
        ListFault::Device { clock, faults } => {
            let _ = write_device(out, clock, faults);
            Status { code: 6 }
        }
        ListFault::Size { blocks } => {
            let _ = write_size(out, blocks);
            Status { code: 8 }
        }
        ListFault::Sink { .. } => Status { code: 5 },
        ListFault::Memory => {
            let _ = write_memory(out);
            Status { code: 9 }
        }
    }
}

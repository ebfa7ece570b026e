//! The command `mkfs` (docs/program.md).

ghost use Rattle.std.specs.Prelude.{◌≡◌};
ghost use Rattle.r4_outside.specs.Device.{Goes, IsQuiet, Spares};
ghost use Rattle.r4_mkfs.specs.Mkfs.{IsLabel, IsWritten, MakesInOrder};
ghost use Rattle.r4_offline.specs.Answers.{Makes, TellsMkfsFault};

use crate::status::Status;
use r4_lines::{write_device, write_made, write_memory, write_size};
use r4_mkfs::{MkfsFault, mkfs};
use r4_outside::{Device, Failed, Sink};
use std::alloc::Global;

/// Makes an empty volume of this label.
pub fn make_volume<D: Device, K: Sink>(
    alloc: Global,
    label: &[u8],
    dev: &mut D,
    out: &mut K,
) -> Status
    requires { IsLabel label.now }
    ensures goes { Goes (D.state dev.old) (D.state dev.new) }
    ensures makes { Makes label.now (D.state dev.old) (K.state out.old)
        result.code (D.state dev.new) (K.state out.new) }
    ensures spares { Spares (IsWritten (D.state dev.old).blocks) (D.state dev.old) (D.state dev.new) }
    ensures any_moment { IsQuiet (D.state dev.old) → MakesInOrder (D.state dev.old) (D.state dev.new) }
{
    match mkfs(alloc, dev, label) {
        Ok(made) => match write_made(out, made.blocks, made.free) {
            Ok(()) => Status { code: 0 },
            Err(Failed) => Status { code: 5 },
        },
        Err(fault) => tell_fault(out, fault),
    }
}

// Prints why no volume was made. A sink that fails here does not change the status.
fn tell_fault<K: Sink>(out: &mut K, fault: MkfsFault) -> Status
    ensures { TellsMkfsFault fault result.code (K.state out.old) (K.state out.new) }
{
    match fault {
        MkfsFault::Device { clock, faults } => {
            let _ = write_device(out, clock, faults);
            Status { code: 6 }
        }
        MkfsFault::Small { blocks } => {
            let _ = write_size(out, blocks);
            Status { code: 8 }
        }
        MkfsFault::Large { blocks } => {
            let _ = write_size(out, blocks);
            Status { code: 8 }
        }
        MkfsFault::Memory => {
            let _ = write_memory(out);
            Status { code: 9 }
        }
    }
}

//! Why a replay ends early.

use r4_base::{BlockNo, LogFault, Memory};
use r4_outside::Failed;
use std::alloc::AllocFailed;

/// Why nothing, or not everything, was put in place.
#[derive(Clone, Copy, Debug, PartialEq, Eq)]
pub enum ReplayFault {
    /// The log is refused: the first fault, and the block that it names.
    Log { block: BlockNo, fault: LogFault },
    /// The device failed: its clock and its count of faults then.
    Device { clock: u64, faults: u64 },
    /// The device has fewer than 64 or more than 1,048,576 blocks.
    Size { blocks: u64 },
    /// No memory was found.
    Memory,
}

/// Why reading the log, or putting it in place, stopped.
#[derive(Clone, Copy, Debug, PartialEq, Eq)]
pub enum Stop {
    Failed,
    Memory,
    Log { block: u64, fault: LogFault },
}

impl From<Failed> for Stop {
    ghost use Rattle.std.specs.Prelude.{◌≡◌};
    ghost use Rattle.r4_replay.specs.declared.fault.Stop.TheVariants.{Failed as HasFailed};

    ghost from_gives = { λ _ e. e ≡ HasFailed };

    fn from(_failed: Failed) -> Stop {
        Stop::Failed
    }
}

impl From<Memory> for Stop {
    ghost use Rattle.std.specs.Prelude.{◌≡◌};
    ghost use Rattle.r4_replay.specs.declared.fault.Stop.TheVariants.{Memory as NoMemory};

    ghost from_gives = { λ _ e. e ≡ NoMemory };

    fn from(_none: Memory) -> Stop {
        Stop::Memory
    }
}

impl<T: Drop> From<AllocFailed<T>> for Stop {
    ghost use Rattle.std.specs.Prelude.{◌≡◌};
    ghost use Rattle.r4_replay.specs.declared.fault.Stop.TheVariants.{Memory as NoMemory};

    ghost from_gives = { λ _ e. e ≡ NoMemory };

    fn from(_none: AllocFailed<T>) -> Stop {
        Stop::Memory
    }
}

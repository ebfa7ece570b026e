//! Why a listing ends early.

use r4_base::{BlockNo, LogFault, Memory};
use r4_cell::ImageFault;
use r4_outside::Failed;
use r4_search::FetchFault;
use std::alloc::AllocFailed;

/// Why not all of a listing was printed (docs/program.md, "Listing").
#[derive(Clone, Copy, Debug, PartialEq, Eq)]
pub enum ListFault {
    /// The log is refused: the first fault, and the block that it names.
    Log { block: BlockNo, fault: LogFault },
    /// The superblocks or the bitmaps are refused, or a node that was read: the first fault, and its block.
    Image { block: BlockNo, fault: ImageFault },
    /// The device failed: its clock and its count of faults then.
    Device { clock: u64, faults: u64 },
    /// The device has fewer than 64 or more than 1,048,576 blocks.
    Size { blocks: u64 },
    /// The sink failed, and counts so many faults.
    Sink { faults: u64 },
    /// No memory was found.
    Memory,
}

/// Why printing stopped.
#[derive(Clone, Copy, Debug, PartialEq, Eq)]
pub enum Stop {
    /// A cell was not fetched.
    Fetch(FetchFault),
    /// The sink failed.
    Sink,
    /// No memory was found.
    Memory,
}

impl From<FetchFault> for Stop {
    ghost use Rattle.std.specs.Prelude.{◌≡◌};
    ghost use Rattle.r4_list.specs.declared.fault.Stop.TheVariants.{Fetch as NoCell};

    ghost from_gives = { λ fault e. e ≡ NoCell fault };

    fn from(fault: FetchFault) -> Stop {
        Stop::Fetch(fault)
    }
}

impl From<Failed> for Stop {
    ghost use Rattle.std.specs.Prelude.{◌≡◌};
    ghost use Rattle.r4_list.specs.declared.fault.Stop.TheVariants.{Sink as NoSink};

    ghost from_gives = { λ _ e. e ≡ NoSink };

    fn from(_failed: Failed) -> Stop {
        Stop::Sink
    }
}

impl From<Memory> for Stop {
    ghost use Rattle.std.specs.Prelude.{◌≡◌};
    ghost use Rattle.r4_list.specs.declared.fault.Stop.TheVariants.{Memory as NoMemory};

    ghost from_gives = { λ _ e. e ≡ NoMemory };

    fn from(_none: Memory) -> Stop {
        Stop::Memory
    }
}

impl<T: Drop> From<AllocFailed<T>> for Stop {
    ghost use Rattle.std.specs.Prelude.{◌≡◌};
    ghost use Rattle.r4_list.specs.declared.fault.Stop.TheVariants.{Memory as NoMemory};

    ghost from_gives = { λ _ e. e ≡ NoMemory };

    fn from(_none: AllocFailed<T>) -> Stop {
        Stop::Memory
    }
}

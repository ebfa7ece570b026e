//! Why a walk stops early.

use r4_base::Memory;
use r4_outside::Failed;
use std::alloc::AllocFailed;

/// Why a walk stopped.
#[derive(Clone, Copy, Debug, PartialEq, Eq)]
pub enum Stop {
    /// The device failed.
    Device,
    /// The sink failed.
    Sink,
    /// No memory was found.
    Memory,
}

impl From<Failed> for Stop {
    ghost use Rattle.std.specs.Prelude.{◌≡◌};
    ghost use Rattle.r4_check.specs.declared.stop.Stop.TheVariants.{Sink as NoSink};

    ghost from_gives = { λ _ e. e ≡ NoSink };

    fn from(_failed: Failed) -> Stop {
        Stop::Sink
    }
}

impl From<Memory> for Stop {
    ghost use Rattle.std.specs.Prelude.{◌≡◌};
    ghost use Rattle.r4_check.specs.declared.stop.Stop.TheVariants.{Memory as NoMemory};

    ghost from_gives = { λ _ e. e ≡ NoMemory };

    fn from(_none: Memory) -> Stop {
        Stop::Memory
    }
}

impl<T: Drop> From<AllocFailed<T>> for Stop {
    ghost use Rattle.std.specs.Prelude.{◌≡◌};
    ghost use Rattle.r4_check.specs.declared.stop.Stop.TheVariants.{Memory as NoMemory};

    ghost from_gives = { λ _ e. e ≡ NoMemory };

    fn from(_none: AllocFailed<T>) -> Stop {
        Stop::Memory
    }
}

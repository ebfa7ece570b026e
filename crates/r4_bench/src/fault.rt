//! Why nothing was measured.

ghost use Rattle.std.specs.Prelude.{◌≡◌};

use r4_base::Memory;
use std::alloc::AllocFailed;

/// Why nothing was measured.
#[derive(Clone, Copy, Debug, PartialEq, Eq)]
pub enum Fault {
    /// The words ask for nothing that is here.
    Words,
    /// A call may not be made, or is refused.
    Unfit,
    /// There is no memory.
    Memory,
}

impl From<Memory> for Fault {
    fn from(_none: Memory) -> Fault {
        Fault::Memory
    }
}

impl<T: Drop> From<AllocFailed<T>> for Fault {
    fn from(_none: AllocFailed<T>) -> Fault {
        Fault::Memory
    }
}

//! Why no core is opened.

use r4_base::{BlockNo, LayoutFault, LogFault, Memory};
use r4_outside::Device;

/// Why a volume was not opened, and its device, which goes back (docs/core.md, "Opening").
pub struct OpenFault<D: Device> {
    pub dev: D,
    pub why: OpenWhy,
}

/// Why a volume was not opened.
#[derive(Clone, Copy, Debug, PartialEq, Eq)]
pub enum OpenWhy {
    /// The log is refused: the first fault, and the block that it names. Nothing was written.
    Log { block: BlockNo, fault: LogFault },
    /// The superblocks or the bitmaps are refused, once the log was put in place: the first fault,
    /// and the block that it names.
    Image { block: BlockNo, fault: LayoutFault },
    /// The device failed: its clock and its count of faults then.
    Device { clock: u64, faults: u64 },
    /// The device has fewer than 64 or more than 1,048,576 blocks.
    Size { blocks: u64 },
    /// No memory was found.
    Memory,
}

impl From<Memory> for OpenWhy {
    ghost use Rattle.std.specs.Prelude.{◌≡◌};
    ghost use Rattle.r4_start.specs.declared.fault.OpenWhy.TheVariants.{Memory as Why};

    ghost from_gives = { λ _ e. e ≡ Why };

    fn from(_none: Memory) -> OpenWhy {
        OpenWhy::Memory
    }
}

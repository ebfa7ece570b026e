//! What an opening answers.

use r4_base::{Block, BlockNo, LayoutFault, Memory, Super40};
use r4_outside::Failed;
use std::alloc::AllocFailed;

/// What opening an image found: the format superblock; the bitmaps, bitmap 0 first; and the head
/// that the journal header names, the newest of the log (docs/layout.md).
#[derive(Drop)]
pub struct Opened {
    pub super40: Super40,
    pub bitmaps: Vec<Block>,
    pub head: BlockNo,
}

/// Why an image was not opened.
#[derive(Clone, Copy, Debug, PartialEq, Eq)]
pub enum Unopened {
    /// A call of the device failed.
    Failed,
    /// The first fault of the superblocks or the bitmaps, and the block that it names.
    Layout { block: BlockNo, fault: LayoutFault },
    /// No memory was found.
    Memory,
}

impl From<Failed> for Unopened {
    ghost use Rattle.std.specs.Prelude.{◌≡◌};
    ghost use Rattle.r4_open.specs.declared.opened.Unopened.TheVariants.{Failed as Why};

    ghost from_gives = { λ _ e. e ≡ Why };

    fn from(_failed: Failed) -> Unopened {
        Unopened::Failed
    }
}

impl From<Memory> for Unopened {
    ghost use Rattle.std.specs.Prelude.{◌≡◌};
    ghost use Rattle.r4_open.specs.declared.opened.Unopened.TheVariants.{Memory as Why};

    ghost from_gives = { λ _ e. e ≡ Why };

    fn from(_none: Memory) -> Unopened {
        Unopened::Memory
    }
}

impl<T: Drop> From<AllocFailed<T>> for Unopened {
    ghost use Rattle.std.specs.Prelude.{◌≡◌};
    ghost use Rattle.r4_open.specs.declared.opened.Unopened.TheVariants.{Memory as Why};

    ghost from_gives = { λ _ e. e ≡ Why };

    fn from(_none: AllocFailed<T>) -> Unopened {
        Unopened::Memory
    }
}

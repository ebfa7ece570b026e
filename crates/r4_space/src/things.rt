//! What the space of a volume keeps of atoms, and the answer where it is short.

use r4_base::{AtomNo, BlockNo, Memory};

/// A block that is held or deferred for an atom.
#[derive(Clone, Copy, Debug, PartialEq, Eq)]
pub struct Claim {
    pub atom: AtomNo,
    pub block: BlockNo,
}

/// An open atom with its two numbers: `cells` counts its cells, and `fresh` those of them that have no block.
#[derive(Clone, Copy, Debug, PartialEq, Eq)]
pub struct Account {
    pub atom: AtomNo,
    pub cells: u64,
    pub fresh: u64,
}

/// A change needs `need` blocks more, and `free`, which are fewer, are free (docs/space.md, "Price and free").
#[derive(Clone, Copy, Debug, PartialEq, Eq)]
pub struct Short {
    pub need: u64,
    pub free: u64,
}

/// Why no space is read from bitmaps: `Bitmap` names the block of the first fault (docs/layout.md, "Bitmaps"), and
/// `Memory` is want of memory.
#[derive(Clone, Copy, Debug, PartialEq, Eq)]
pub enum SpaceFault {
    Bitmap { block: BlockNo },
    Memory,
}

impl From<Memory> for SpaceFault {
    ghost use Rattle.std.specs.Prelude.{◌≡◌};
    ghost use Rattle.r4_space.specs.declared.things.SpaceFault.TheVariants.{Memory as NoMemory};

    ghost from_gives = { λ _ fault. fault ≡ NoMemory };

    fn from(_none: Memory) -> SpaceFault {
        SpaceFault::Memory
    }
}

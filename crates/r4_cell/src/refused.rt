//! Why a block is no cell, and why an image is refused.

use r4_base::{CellFault, LayoutFault};

/// Why no cell was made of a block: its first fault at its level and range (docs/volume.md, "Cells"), or want of memory.
#[derive(Clone, Copy, Debug, PartialEq, Eq)]
pub enum CellRefused {
    Fault(CellFault),
    Memory,
}

/// What is wrong with an image: its superblocks and bitmaps (docs/layout.md), or a cell (docs/volume.md, "Cells").
#[derive(Clone, Copy, Debug, PartialEq, Eq)]
pub enum ImageFault {
    Layout(LayoutFault),
    Cell(CellFault),
}

impl ImageFault {
    ghost use Rattle.std.specs.Prelude.{◌≡◌};
    ghost use Rattle.r4_cell.specs.Words.{image_word_of};

    /// Its words, as they are printed (docs/program.md, "Lines and statuses").
    pub fn word(self) -> &'static str
        ensures { result.now ≡ image_word_of self }
    {
        match self {
            ImageFault::Layout(fault) => fault.word(),
            ImageFault::Cell(fault) => fault.word(),
        }
    }
}

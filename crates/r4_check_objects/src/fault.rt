//! What is wrong at a block.

ghost use Rattle.std.specs.Prelude.{◌≡◌};

use r4_base::{BlockNo, CellFault};

/// What is wrong at a block, in the words that are printed (docs/check.md).
#[derive(Clone, Copy, Debug, PartialEq, Eq)]
pub enum What {
    /// It may not stand at the level and for the keys at which it is named.
    Cell(CellFault),
    /// It was reached before.
    Twice,
    /// It is reached, and its bit is 0.
    Unmarked,
    /// The size of an object that it holds is not that of its body, or of its entries.
    Size,
    /// The links of an object that it holds are not as many as name it.
    Links,
    /// It holds an object that is not reached from the root, or what is no object's.
    Lost,
    /// The id of an object that it holds is below 42, or not below the next one.
    Id,
    /// The superblock counts other than the objects.
    Files,
}

impl What {
    ghost use Rattle.r4_check_objects.specs.Faults.{word_of};

    /// Its words, as they are printed (docs/check.md).
    pub fn word(self) -> &'static str
        ensures { result.now ≡ word_of self }
    {
        match self {
            What::Cell(fault) => fault.word(),
            What::Twice => "twice",
            What::Unmarked => "unmarked",
            What::Size => "size",
            What::Links => "links",
            What::Lost => "lost",
            What::Id => "id",
            What::Files => "files",
        }
    }
}

/// A block at fault, and what is wrong there (docs/check.md).
#[derive(Clone, Copy, Debug, PartialEq, Eq)]
pub struct Fault {
    pub block: BlockNo,
    pub what: What,
}

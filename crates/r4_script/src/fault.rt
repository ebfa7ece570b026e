//! Why a text is no job.

use r4_base::Memory;
use std::alloc::AllocFailed;

/// What is wrong at a place of a text (docs/scripts.md, "Faults").
#[derive(Clone, Copy, Debug, PartialEq, Eq)]
pub enum What {
    /// An unknown word, or a command before the first `script`.
    Command,
    /// A field is missing, or there is one too many.
    Field,
    /// A field is no number, or none that is allowed there.
    Number,
    /// A field is no path.
    Path,
    /// A text is longer than 4096 bytes.
    Text,
    /// `begin` inside a transaction.
    Nested,
    /// `end` outside a transaction.
    Unopened,
    /// `commit` inside a transaction.
    Open,
    /// The 65th script.
    Scripts,
    /// The text is longer than 16 MiB.
    Long,
}

/// The first place of a text at which it is no job. Lines, and the bytes of a line, are counted from 1.
#[derive(Clone, Copy, Debug, PartialEq, Eq)]
pub struct ScriptFault {
    pub line: u32,
    pub column: u32,
    pub what: What,
}

/// Why there is no job.
#[derive(Clone, Copy, Debug, PartialEq, Eq)]
pub enum ParseFault {
    /// The text is not in the grammar.
    Script(ScriptFault),
    /// There was not enough memory.
    Memory,
}

/// The first place of a line at which it is no command. Bytes are counted from 1.
#[derive(Clone, Copy, Debug, PartialEq, Eq)]
pub struct Spot {
    pub column: u32,
    pub what: What,
}

/// Why a line could not be read.
#[derive(Clone, Copy, Debug, PartialEq, Eq)]
pub enum Stop {
    Spot(Spot),
    Memory,
}

impl From<Memory> for Stop {
    ghost use Rattle.std.specs.Prelude.{◌≡◌};
    ghost use Rattle.r4_script.specs.declared.fault.Stop.TheVariants.{Memory as NoMemory};

    ghost from_gives = { λ _ e. e ≡ NoMemory };

    fn from(_none: Memory) -> Stop {
        Stop::Memory
    }
}

impl<T: Drop> From<AllocFailed<T>> for Stop {
    ghost use Rattle.std.specs.Prelude.{◌≡◌};
    ghost use Rattle.r4_script.specs.declared.fault.Stop.TheVariants.{Memory as NoMemory};

    ghost from_gives = { λ _ e. e ≡ NoMemory };

    fn from(_none: AllocFailed<T>) -> Stop {
        Stop::Memory
    }
}

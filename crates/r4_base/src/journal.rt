//! What the blocks of the log spell, and why a log is refused (docs/layout.md, "The log").

ghost use Rattle.std.specs.Prelude.{◌≡◌};

/// The journal header, block 19: the head of the newest committed transaction.
#[derive(Clone, Copy, Debug, PartialEq, Eq)]
pub struct Header {
    pub last: u64,
}

/// The journal footer, block 20: the head of the newest flushed transaction, and its three numbers.
#[derive(Clone, Copy, Debug, PartialEq, Eq)]
pub struct Footer {
    pub last: u64,
    pub free_blocks: u64,
    pub nr_files: u64,
    pub next_oid: u64,
}

/// The head of a transaction; `total` counts the head and its records.
#[derive(Clone, Copy, Debug, PartialEq, Eq)]
pub struct TxHead {
    pub id: u64,
    pub total: u32,
    pub prev_tx: u64,
    pub next_block: u64,
    pub free_blocks: u64,
    pub nr_files: u64,
    pub next_oid: u64,
}

/// Why a log is refused (docs/layout.md, "Replay").
#[derive(Clone, Copy, Debug, PartialEq, Eq)]
pub enum LogFault {
    Range,
    HeadMagic,
    Total,
    Long,
    RecordMagic,
    Id,
    Serial,
    Pairs,
    Circle,
    Overlap,
}

impl LogFault {
    ghost use Rattle.r4_base.specs.Words.{log_word_of};

    /// Its words, as they are printed (docs/program.md, "Lines and statuses").
    pub fn word(self) -> &'static str
        ensures { result.now ≡ log_word_of self }
    {
        match self {
            LogFault::Range => "range",
            LogFault::HeadMagic => "head magic",
            LogFault::Total => "total",
            LogFault::Long => "long",
            LogFault::RecordMagic => "record magic",
            LogFault::Id => "id",
            LogFault::Serial => "serial",
            LogFault::Pairs => "pairs",
            LogFault::Circle => "circle",
            LogFault::Overlap => "overlap",
        }
    }
}

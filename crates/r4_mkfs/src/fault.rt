//! Why no volume was made.

/// Why no volume was made: `Small`, with fewer than 64 blocks, or `Large`, with more than 1,048,576, and then nothing was
/// written; `Device`, where a call of the device failed, with its clock and its count of faults then; `Memory`, where no
/// memory was found, and then nothing was written (docs/program.md, "Lines and statuses").
#[derive(Clone, Copy, Debug, PartialEq, Eq)]
pub enum MkfsFault {
    Small { blocks: u64 },
    Large { blocks: u64 },
    Device { clock: u64, faults: u64 },
    Memory,
}

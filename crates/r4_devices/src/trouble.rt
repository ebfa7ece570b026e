//! Why a call of a file failed, in the system's words (docs/program.md, "Standard error").

use r4_base::BlockNo;
use std::io;

/// A call of a file that is a device: `Open` stands for its opening and for the count of its blocks.
#[derive(Clone, Copy, Debug, PartialEq, Eq)]
pub enum FileCall {
    Open,
    Read(BlockNo),
    Write(BlockNo),
    Sync,
}

/// A call of a file that failed, and what the system says of it.
#[derive(Clone, Copy)]
pub struct Trouble {
    pub call: FileCall,
    pub error: io::Error,
}

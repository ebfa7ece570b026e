//! What a command has seen of a content (docs/commands.md, "Reading").

use crate::edits::ByteRun;
use r4_base::{Key, Value};

/// A part of what was seen: what stands at one key, or bytes at one key after another.
#[derive(Drop)]
pub enum SeenPart {
    One { key: Key, value: Value },
    Run(ByteRun),
}

/// What was seen of a content, rising by key. A key at which nothing was seen has nothing, as far as the command asks for
/// it (docs/commands.md, "Reading").
#[derive(Drop)]
pub struct Seen {
    pub parts: Vec<SeenPart>,
}

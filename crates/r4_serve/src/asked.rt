//! What becomes of a command.

use crate::need::NodesNeeded;
use r4_base::{AtomNo, NodeId, TaskId};
use r4_content::Reply;
use r4_extent_reach::Reach;

/// What becomes of a command before its work (docs/core.md, "Asking").
#[derive(Drop)]
pub enum Asked {
    /// What it reads ended at a block: `Readfault` or `Damaged`, which names it. Or what it reads
    /// has a block that no cell of a sound image has, since an atom took its cell away or the
    /// commit under way writes there: `Damaged`, with the first such block.
    Refused { reply: Reply },
    /// It has to wait: this atom is sealed, and owns a cell that it reads or writes.
    Sealed { atom: AtomNo },
    /// It has to wait: another task holds this cell, in a mode that conflicts.
    Busy { node: NodeId, holder: TaskId },
    /// The tree may have to grow for it, and is as high as it may be.
    Tall { height: u8 },
    /// It may be worked at.
    Ready { ready: Ready },
}

/// What a command that may be worked at reads and writes.
#[derive(Drop)]
pub struct Ready {
    pub reach: Reach,
    /// The nodes of its cells, for which it has to take holds.
    pub need: NodesNeeded,
}

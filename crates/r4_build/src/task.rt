//! A command that is to be built (docs/volume.md, "Building").

use r4_base::{ScriptNo, TaskId, TxnNo};
use r4_content::{Command, Seen};
use r4_measure::{Cells, Fresh};
use r4_turns::Scope;
use std::sync::Arc;

/// A command of a script with all that it takes to make its change, and no more: the cells that it reads and writes,
/// what was seen at the keys that it asks for, what is known of its reach besides, and numbers for new nodes. So no tree and no lock is needed
/// (docs/volume.md, "Building").
#[derive(Drop)]
pub struct Task {
    pub id: TaskId,
    pub script: ScriptNo,
    /// The command's place in its script, from 0 on.
    pub index: u32,
    pub txn: TxnNo,
    pub command: Command,
    pub reads: Cells,
    pub writes: Cells,
    pub seen: Arc<Seen>,
    pub scope: Scope,
    pub fresh: Fresh,
}

/// There was not enough memory: the task, as it was.
#[derive(Drop)]
pub struct BuildFault {
    pub task: Task,
}

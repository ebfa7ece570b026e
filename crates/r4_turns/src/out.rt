//! A task that is out.

ghost use Rattle.std.specs.Prelude.{◌≡◌};

use r4_base::{NodeId, Oid, TaskId, TxnNo};
use r4_cell::{Cells, Fresh, Root};
use r4_content::Seen;
use std::marker::Model;
use std::sync::Arc;

/// Nodes in their order, which contracts see as their list.
#[derive(Drop)]
pub struct Nodes {
    items: Vec<NodeId>,
}

impl Model for Nodes {
    ghost use Rattle.std.specs.Prelude.{List};
    ghost use Rattle.r4_base.specs.declared.things.NodeId.{NodeId};

    ghost Value = { List NodeId };

    ghost view = { λ n. n.items.items };
}

impl Nodes {
    /// These nodes, which are moved and not copied.
    pub fn from_vec(items: Vec<NodeId>) -> Nodes
        ensures { result ≡ items.items }
    {
        Nodes { items }
    }

    /// The nodes, to be read.
    pub fn as_slice(&self) -> &[NodeId]
        ensures { result.now ≡ self.now }
    {
        self.items.as_slice()
    }
}

/// The numbers that are drawn for a command: that of the object that it makes, and those of its new nodes.
#[derive(Clone, Copy, Debug, PartialEq, Eq)]
pub struct Numbers {
    pub oid: Oid,
    pub fresh: Fresh,
}

/// How many new cells a command may bring at most that goes out as a task.
pub const MOST_NEW: u64 = 100_000_000;

/// What is known of a command's reach beside its cells: the root of the tree in which they were met, whether all that it
/// changes lies in leaves, whether the body that it changes stood in extents, and how many new cells may come at most.
#[derive(Clone, Copy, Debug, PartialEq, Eq)]
pub struct Scope {
    pub root: Root,
    pub in_leaves: bool,
    pub in_extents: bool,
    pub most: u64,
}

/// A command that is out as a task: its transaction, the cells that it was given to read and to write, the nodes that are
/// kept for it, what was seen at the keys that the command asks for, what is known of its reach besides, its numbers, and
/// for how many cells and claims on blocks there is room for it.
#[derive(Drop)]
pub struct Out {
    pub task: TaskId,
    pub txn: TxnNo,
    pub reads: Cells,
    pub writes: Cells,
    pub pins: Nodes,
    pub seen: Arc<Seen>,
    pub scope: Scope,
    pub numbers: Numbers,
    pub cells: u64,
    pub claims: u64,
}

//! Why nothing can be served.

use r4_base::{AtomNo, NodeId, TaskId, TxnNo};

/// Why a script cannot go on.
#[derive(Clone, Copy, Debug, PartialEq, Eq)]
pub enum Why {
    /// Its command is out as this task.
    Out { task: TaskId },
    /// Another task holds a node that its next command reaches, in a mode that conflicts.
    Held { node: NodeId, holder: TaskId },
    /// This atom is sealed, and owns a node that its next command reaches; or its next command is
    /// `commit`, and waits until that commit is over.
    Sealed { atom: AtomNo },
    /// Its next command is `commit`, and each of its atoms that are not sealed has an open
    /// transaction: the smallest one, and its smallest open transaction.
    Open { atom: AtomNo, txn: TxnNo },
}

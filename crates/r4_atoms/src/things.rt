//! What is said of transactions and atoms.

use r4_base::{AtomNo, ScriptNo, TxnNo};

/// What an atom owes and what it changed: the number of its cells, of its cells without a block, and of the objects that
/// were born and are gone in it.
#[derive(Clone, Copy, Debug, PartialEq, Eq)]
pub struct Account {
    pub cells: u64,
    pub fresh: u64,
    pub born: u64,
    pub gone: u64,
}

/// Why a node was not captured.
#[derive(Clone, Copy, Debug, PartialEq, Eq)]
pub enum CaptureFault {
    /// Another atom, which is not sealed, owns the node.
    Owned { by: AtomNo },
    /// There is no memory.
    Memory,
}

/// Why an atom was not sealed: its smallest open transaction.
#[derive(Clone, Copy, Debug, PartialEq, Eq)]
pub struct StillOpen {
    pub txn: TxnNo,
}

/// What of a script is in atoms that are neither sealed nor committed.
#[derive(Clone, Copy, Debug, PartialEq, Eq)]
pub enum Uncommitted {
    /// Nothing.
    None,
    /// The smallest such atom without an open transaction.
    Closed(AtomNo),
    /// Each has one: the smallest such atom and its smallest open transaction.
    Open { atom: AtomNo, txn: TxnNo },
}

/// A transaction: its script, and whether it is open. `open_txns` is the number of open transactions of the atom that is
/// named by it.
#[derive(Clone, Copy)]
pub struct Row {
    pub script: ScriptNo,
    pub is_open: bool,
    pub open_txns: u32,
}

/// What became of an atom, and its account.
#[derive(Clone, Copy)]
pub struct AtomState {
    pub sealed: bool,
    pub committed: bool,
    pub cleaned: bool,
    pub account: Account,
}

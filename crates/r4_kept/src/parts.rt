//! The small parts of a core.

use r4_base::{AtomNo, BlockNo, Super40};
use r4_durable::CommitPlan;
use r4_history::Nodes;

/// The numbers that are drawn next.
#[derive(Clone, Copy, Debug, PartialEq, Eq)]
pub struct Numbers {
    /// That of the next new object, at most 2^60 - 1.
    pub next_oid: u64,
    /// That of the next new cell, at least 2^63.
    pub next_name: u64,
}

/// What is committed of the volume.
#[derive(Clone, Copy, Debug, PartialEq, Eq)]
pub struct Volume {
    /// The committed superblock.
    pub super40: Super40,
    /// The head that the journal header names.
    pub prev: BlockNo,
}

/// The commit of a sealed atom under way.
#[derive(Drop)]
pub struct Commit {
    pub atom: AtomNo,
    /// The names of the cells that the atom owns, of those too that are gone.
    pub nodes: Nodes,
    /// What is left to write; an atom without cells writes nothing.
    pub work: Option<CommitPlan>,
}

/// What a step of a commit did.
#[derive(Clone, Copy, Debug, PartialEq, Eq)]
pub enum Step {
    /// Nothing: no commit is under way.
    Idle,
    /// The commit went on. With the journal footer it is over.
    More,
    /// The atom is committed: its journal header is written, or it has no cells.
    Committed(AtomNo),
    /// A call of the device failed, and the commit is over: the clock and the count of faults then.
    Broken { clock: u64, faults: u64 },
}

//! What is looked at to say what becomes of a command.

use r4_atoms::Atoms;
use r4_buffer::Buffer;
use r4_cell::Root;
use r4_commit::CommitPlan;
use r4_locks::LockTable;

/// The parts of a core that decide what becomes of a command: the cells in memory, the holds, the
/// atoms, the root of the tree of all atoms, the number of blocks of the volume, and what the
/// commit under way writes, if it writes anything (docs/core.md, "Asking").
#[derive(Drop)]
pub struct Parts<'a> {
    pub buffer: &'a Buffer,
    pub locks: &'a LockTable,
    pub atoms: &'a Atoms,
    pub root: Root,
    pub blocks: u64,
    pub plan: Option<&'a CommitPlan>,
}

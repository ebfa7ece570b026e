//! Any set of open atoms: the committed cells with the cells of the set in place are a tree, which has the content of
//! its commands (docs/sets.md).
#![tactic(auto)]

mod changes;
mod laws;

pub use changes::{bodies_are_shown, bodies_stand_after, changes_do_commands, files_stand_after};
pub use laws::{
    atom_is_committed, atom_is_sealed, atoms_fuse, cells_are_flushed, cells_are_renamed,
    command_applies, command_is_answered, entry_is_told, session_begins, sets_are_patches,
    sets_stand,
};

//! The cells of an atom get the names of their blocks, wherever they are named beside the cells themselves
//! (docs/core.md, "Sealing").
#![tactic(auto)]

mod cells;
mod names;
mod owners;
mod pins;
mod renaming;

pub use r4_flush::{Prepared, RenamedCell, prepare};
pub use renaming::rename_atom;

//! What the flush of an atom prepares: its cells under the names of their blocks, and the plan of its commit
//! (docs/durable.md, "From an open atom to its plan").
#![tactic(auto)]

mod bodies;
mod cells;
mod laws;
mod names;
mod preparing;

pub use cells::RenamedCell;
pub use laws::{chosen_blocks_are_free, names_are_those_of_blocks, prepared_atoms_are_flushed};
pub use preparing::{Prepared, prepare};

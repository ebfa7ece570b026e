//! An open atom is flushed where nothing is unflushed: its cells stand under the names of their blocks, and it is
//! sealed (docs/durable.md).
#![tactic(auto)]

mod flushing;
mod sample;

pub use flushing::{
    deferred_blocks_are_gone, flushed_atoms_are_sealed, flushed_cells_are_written,
    owned_blocks_stand,
};
pub use r4_placed::{CommitPlan, on_disk_law, plan};
pub use sample::one_cell_can_be_flushed;

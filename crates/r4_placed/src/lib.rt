//! The cells of an open atom get blocks, and the names of these, where nothing is unflushed; and a plan can be made for
//! them (docs/durable.md).
#![tactic(auto)]

mod naming;
mod plans;

pub use naming::{cells_have_places, names_become_blocks, renamed_blocks_are_cells};
pub use plans::plans_can_be_made;
pub use r4_sealed::{CommitPlan, on_disk_law, plan};

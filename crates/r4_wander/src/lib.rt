//! Writes a commit in its order (docs/commit.md, "Order").
#![tactic(auto)]

mod entry;
mod home_block;
mod laws;
mod making;
mod plan;
mod stage;
mod writer;

pub use home_block::HomeBlock;
pub use laws::{
    commit_fits, commit_is_bounded, commit_keeps_blocks, commit_keeps_volumes, commit_on_a_device,
    commit_settles, commit_spares_needed, reads_between_steps,
};
pub use plan::{Blocks, LogPlan, PlacedCell, PlacedCells, WanderedCopies, WanderedCopy};
pub use stage::Stage;
pub use writer::Writer;

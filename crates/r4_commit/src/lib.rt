//! Plans the commit of an atom, and makes it (docs/commit.md, "Plans").
#![tactic(auto)]

mod commit_plan;
mod holding;
mod homes;
mod laws;
mod log_blocks;
mod places;
mod planning;

pub use commit_plan::{CommitPlan, step};
pub use laws::{
    commit_settles_by_plan, commits_are_bounded, new_bitmaps_are_sound, plans_are_safe,
    plans_keep_off_the_new_tree, plans_spare_the_volume,
};
pub use planning::plan;
pub use r4_place::on_disk_law;

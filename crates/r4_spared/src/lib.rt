//! What is asked of a tree by commands that touch no extent (docs/volume.md, "Building").
#![tactic(auto)]

mod examples;
mod laws;

pub use examples::fresh_volumes_have_leaves;
pub use laws::{
    answers_can_be_built, asks_stay_small, commands_can_be_built, commands_change_lawful_keys,
    keys_in_leaves_spare_extents, objects_are_found_good,
};
pub use r4_build::{by_place, plan};

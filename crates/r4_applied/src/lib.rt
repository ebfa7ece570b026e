//! What was built of a command does in the tree of all atoms what the command means
//! (docs/sets.md; docs/volume.md, "Building").
#![tactic(auto)]

mod laws;

pub use laws::{built_commands_apply, built_commands_do, touched_keys_are_reached};
pub use r4_build::{BuildFault, Built, Change, ObjectCounts, Task, build, plan};

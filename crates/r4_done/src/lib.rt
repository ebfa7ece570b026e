//! What holds of a core once the change that was built of a task is made, inside of a transaction
//! or as a single command (docs/core.md, "Little steps").
#![tactic(auto)]

pub use r4_taking::Buffer;

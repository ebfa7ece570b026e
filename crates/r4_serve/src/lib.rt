//! What becomes of the next command of a script, before its work (docs/core.md, "Asking").
#![tactic(auto)]

mod asked;
mod asking;
mod need;
mod parts;
mod stray;

pub use asked::{Asked, Ready};
pub use asking::ask;
pub use need::{NodesNeeded, nodes_of};
pub use parts::Parts;
pub use r4_commit::{CommitPlan, step};
pub use r4_extent_reach::Reach;

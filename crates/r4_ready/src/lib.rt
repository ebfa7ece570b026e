//! That a command which `ask` calls ready can go out as a task: what the core asks of one
//! (docs/core.md, "Asking" and "Little steps").
#![tactic(auto)]

pub use r4_serve::{Asked, CommitPlan, NodesNeeded, Parts, Reach, Ready, ask, nodes_of, step};
pub use r4_taking::{Commit, Numbers, ObjectCounts, Step, Task, Volume};

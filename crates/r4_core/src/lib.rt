//! The core of a volume: a device, and the parts that a run keeps beside it (docs/core.md). Here is
//! its form, with what holds of every core, its opening, the steps of a commit, and other
//! little steps.
#![tactic(auto)]

mod answering;
mod asking;
mod beginning;
mod committing;
mod core_state;
mod doing;
mod ending;
mod fusing;
mod giving_back;
mod handing;
mod leaving;
mod opening;
mod plan_ends;
mod pushing;
mod refusing;
mod rooms;
mod sealing;
mod stepping;

pub use core_state::{Core, goes_to_threads};
pub use doing::Made;
pub use handing::{Given, GoingOut};
pub use r4_flushing::{Prepared, RenamedCell, prepare};
pub use r4_others::{Other, Why, others};
pub use r4_ready::{
    Asked, Commit, NodesNeeded, Numbers, Reach, Ready, Step, Task, Volume, nodes_of,
};
pub use r4_start::{OpenFault, OpenWhy, Wanted};

//! Tasks that come back built (docs/core.md, "Applying").
#![tactic(auto)]

mod applying;
mod making;
mod working;

pub use applying::{Applied, apply};
pub use r4_back::{
    BuildFault, Built, Core, Differs, OpenFault, OpenWhy, Step, Taken, Task, Wanted, build, flush,
    give_back, is_refusable, pending, recall, refuse, refuse_memory, refuse_next, take,
};

//! A script's next command, work, is served (docs/core.md, "Serving").
#![tactic(auto)]

mod naming;
mod refusing;
mod serving;

pub use r4_take::{Core, Made, OpenFault, OpenWhy, Step, Task, Wanted, flush};
pub use refusing::refuse;
pub use serving::{Served, serve};

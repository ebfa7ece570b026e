//! The flush of an atom (docs/core.md, "Flushing").
#![tactic(auto)]

mod checking;
mod flushing;
mod gathering;
mod preparing;
mod waiting;

pub use flushing::flush;
pub use r4_core::{
    Asked, Core, Given, GoingOut, Made, NodesNeeded, Numbers, OpenFault, OpenWhy, Other, Reach,
    Ready, Step, Task, Wanted, Why, nodes_of, others,
};

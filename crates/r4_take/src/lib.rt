//! What a core does as a command is taken: its numbers, and how it goes out as a task once it is
//! ready (docs/core.md, "Going out").
#![tactic(auto)]

mod drawing;
mod gathering;
mod lending;
mod sending;

pub use drawing::{Draws, numbers_for};
pub use r4_seal::{Asked, Core, Made, OpenFault, OpenWhy, Step, Task, Wanted, Why, flush};
pub use sending::send;

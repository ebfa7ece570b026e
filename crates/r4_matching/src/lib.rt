//! Whether a task that comes back is the one that is out (docs/core.md, "Matching").
#![tactic(auto)]

mod cells;
mod lists;
mod matching;
mod seen;

pub use cells::Differs;
pub use matching::{Mismatch, match_task};

#[cfg(test)]
mod tests;

pub use r4_build::{BuildFault, Built, Task, build};

//! The faults of an image, by name (docs/check.md).
#![tactic(auto)]

mod blocks;
mod laws;
mod lines;
mod look;
mod objects;
mod reading;
mod settled;
mod stop;
mod tally;
mod tree;

pub use laws::{cells_are_read, small_trees, whole_walks_are_closed};
pub use r4_check_objects::{Fault, What};
pub use r4_list::{ListFault, list};
pub use tree::{Verdict, check};

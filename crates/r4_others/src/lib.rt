//! The other open atoms that own a node of a command's reach (docs/histories.md).
#![tactic(auto)]

mod finding;

pub use finding::{Other, others};
pub use r4_history::Why;

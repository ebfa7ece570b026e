//! What the crates of tests share: the offline commands over memory, by their words.
#![tactic(auto)]

mod calls;

pub use calls::{LIST, REPLAY, call};

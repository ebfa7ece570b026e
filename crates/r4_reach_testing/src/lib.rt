//! What a command reaches in a tree on a device, as words, and tables of that, for tests
//! (docs/volume.md, "Reach").
#![tactic(auto)]

mod reached;
mod tables;

pub use reached::{Found, Reached, reach};
pub use tables::{Row, Telling, differences};

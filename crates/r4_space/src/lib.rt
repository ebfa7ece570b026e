//! The space of a volume: which blocks are used, and what a change costs.
#![tactic(auto)]

mod bits;
mod check;
mod claims;
mod cost;
mod laws;
mod ledger;
mod marks;
mod space_map;
mod taken;
mod things;
mod words;

pub use check::{count_all_free, find_fault};
pub use cost::price;
pub use laws::{bitmaps_law, settled_law, used_law};
pub use space_map::SpaceMap;
pub use things::{Short, SpaceFault};

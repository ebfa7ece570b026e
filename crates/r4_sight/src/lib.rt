//! What stands in the cells of a tree at the keys of an interval, as parts of what a command sees (docs/volume.md,
//! "Sight").
#![tactic(auto)]

mod items;
mod stretch;

pub use items::parts_of;
pub use stretch::{Stretch, key_after, stretch_from};

//! Whether the cells that were met are a part of a tree, on every image (docs/volume.md, "Reach").
#![tactic(auto)]

mod judging;
mod laws;
mod misfit;
mod named;
mod nodes;

pub use judging::{judge, misnamed};
pub use laws::what_was_met_is_a_part;
pub use misfit::Misfit;
pub use r4_marking::{Marks, mark};
pub use r4_sight::key_after;

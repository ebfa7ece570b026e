//! What a command reads and writes, wherever the body that it changes stands (docs/volume.md, "Reach").
#![tactic(auto)]

mod answer;
mod beside;
mod keys;
mod known;
mod meeting;
mod objects;
mod reaching;
mod standing;

pub use r4_extent_reaching::Reach;
pub use reaching::reach;

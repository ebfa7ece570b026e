//! What a command has seen of a tree, over a pool that keeps what it met (docs/volume.md, "Sight").
#![tactic(auto)]

mod gaps;
mod looking;
mod places;
mod seeing;

pub use r4_gather::{Asked, plan, see_for};
pub use r4_search::{FetchFault, Pool, cover};
pub use r4_sight::{key_after, stretch_from};
pub use seeing::Seeing;

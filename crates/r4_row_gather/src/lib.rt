//! Keys that are gathered below one twig, leaves that are packed for it, and leaves without units that go out of their way
//! (docs/volume.md, "Bodies in extents").
#![tactic(auto)]

mod clearing;
mod finding;
mod gathering;
mod packing;
mod parting;
mod planning;
mod rising;

pub use gathering::{Gathered, gather};
pub use packing::gather_packed;

// what crates above name by way of this one
pub use r4_patch::follow;
pub use r4_work::KeyRange;

//! Data blocks that stand and get other bytes, as one step of a working set (docs/volume.md, "Bodies in extents").
#![tactic(auto)]

mod renewing;

pub use r4_extent_blocks::{ItemView, Root, pointer};
pub use renewing::{overwrite, overwrite_among};

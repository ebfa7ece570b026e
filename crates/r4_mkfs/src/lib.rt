//! The empty volume, made on any device (docs/volume.md, "A fresh volume").
#![tactic(auto)]

mod bitmaps;
mod fault;
mod making;
mod nodes;
mod superblocks;

pub use fault::MkfsFault;
pub use making::{Made, mkfs};

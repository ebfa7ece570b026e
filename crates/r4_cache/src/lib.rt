//! Cells that were read, the latest used first (docs/volume.md, "Cells").
#![tactic(auto)]

mod cache;

pub use cache::Cache;

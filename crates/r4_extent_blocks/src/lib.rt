//! The bytes of one data block after edits (docs/volume.md, "Data blocks").
#![tactic(auto)]

mod blocks;
mod finding;
mod places;
mod setting;
#[cfg(test)]
mod tests;

pub use blocks::{new_block, overwritten};
pub use finding::sets_bytes;
pub use r4_cell::{Cell, Fresh, ItemView, NodeMut, Root, new_cell, pointer};

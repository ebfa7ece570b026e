//! The superblocks of a volume: read from their bytes, and written into them (docs/layout.md, "Superblocks").
#![tactic(auto)]

mod field;
mod master;
mod superblock;

pub use master::{read_master, write_master};
pub use r4_base::{LayoutFault, Master, Super40};
pub use superblock::{read_super, write_super};

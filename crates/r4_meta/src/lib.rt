//! Stat data and tails: the bodies of two kinds of items (docs/layout.md, "Items").
#![tactic(auto)]

mod stat;
mod tail;

pub use r4_base::{Attr, StatFault};
pub use stat::{read_stat, write_stat};
pub use tail::tail_part;

//! Leaves whose units change: what is put in, and what is cut out (docs/volume.md, "Leaves").
#![tactic(auto)]

mod building;
mod cutting;
mod edits;
mod entries;
mod filling;
mod leaf;
mod measuring;
mod merging;
mod middle;
mod opening;
mod packing;
mod piece;
mod placing;
mod reading;
mod remaking;
mod run;

pub use edits::{cut_out, put_in};
pub use leaf::Leaf;
pub use middle::middle_key;
pub use r4_cde::insert;
pub use r4_meta::{tail_part, write_stat};
pub use r4_node40::{ItemView, NodeMut, NodeView};
pub use remaking::{Given, KeyRange, bytes_after, remake};

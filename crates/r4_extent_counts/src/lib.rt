//! How many new cells come to twigs where a body stands in extents (docs/volume.md, "Reach").
#![tactic(auto)]

mod coming;
mod gaining;

pub use coming::cells_coming;
pub use r4_extent_demands::{POINTER_ROOM, SizedBody, changes_pieces, is_of_body, node_bytes};

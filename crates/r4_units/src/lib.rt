//! What stands in a cell under a key: stat data and entries in a leaf, blocks in an extent (docs/volume.md, "Cells").
#![tactic(auto)]

mod extent;
mod leaf;

pub use extent::unit_of;
pub use leaf::{attr_in, items_up_to, last_item, name_bytes, target_in};
pub use r4_node40::NodeView;
pub use r4_search::{Cell, FetchFault, Keeping, Pool, Root, cover, place_of, top};

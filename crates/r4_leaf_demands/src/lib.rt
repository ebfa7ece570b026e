//! What a command whose edits are of leaves alone asks of each cell (docs/volume.md, "Reach").
#![tactic(auto)]

mod bodies;
mod laws;
mod leaf_demands;
mod measuring;
mod touching;
mod weighing;

pub use bodies::intervals_have;
pub use laws::{commands_of_leaves_may_ask, edits_of_leaves_are_enough};
pub use leaf_demands::LeafDemands;
pub use r4_cell::Cell;
pub use r4_leaf::{KeyRange, bytes_after};
pub use r4_marking::{Asking, Demands, Heard, Marks, child_at, mark};
pub use r4_suited::{
    edits_of_leaf, has, meets_fills, meets_intervals, meets_runs, part_of, pieces_of_cell,
    touches_leaf,
};
pub use touching::low_range;
pub use weighing::{POINTER_ROOM, all_more, growing, node_bytes, over};

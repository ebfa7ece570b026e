//! A command's whole change of the cells of its task, where its body stands in extents and loses no blocks, or loses
//! some (docs/volume.md, "Bodies in extents").
#![tactic(auto)]

mod beside;
mod finding;
mod growing;
mod laws;
mod losing;

pub use beside::without_bytes;
pub use finding::losing_among;
pub use growing::change_of_growing;
pub use laws::{
    keys_of_blocks_go, losses_among_cells, turned_losses_leave_leaves, turned_twigs_leave_leaves,
};
pub use losing::change_of_losing;
pub use r4_build::{Cell, Change, Fresh, WorkingSet};
pub use r4_extent_counts::{POINTER_ROOM, cells_coming, node_bytes};
pub use r4_extent_loss::gone_of;
pub use r4_extent_renew::{ItemView, Root, pointer};

//! What is built of a task, and the change that its command makes where its edits lie in leaves (docs/volume.md,
//! "Building").
#![tactic(auto)]

mod building;
mod built;
mod counting;
mod examples;
mod laws;
mod task;

pub use building::{change_of, make_each};
pub use built::{Built, build};
pub use counting::ObjectCounts;
pub use examples::fresh_volumes_can_be_built_on;
pub use laws::{
    built_changes_fit, edits_are_made, reach_suffices_to_build, spared_extents_leave_leaves,
    what_is_built_is_meant,
};
pub use r4_file::plan;
pub use r4_leaf_edits::{
    KeyRange, Leaf, Level, add, edits_of_leaf, leaf_level, pieces_of_cell, place_of, put_among,
    remake, splice, take_number,
};
pub use r4_measure::{
    Change, LeafParts, WorkingSet, add_pointer, by_place, cells_of, left_part, pieces_parted,
    right_part,
};
pub use r4_turns::{Cell, Cells, Fresh, NodeView, new_cell};
pub use task::{BuildFault, Task};

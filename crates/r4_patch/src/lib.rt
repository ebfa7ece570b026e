//! Patches: cells that take the place of others in a tree. Their laws, and the join of two changes (docs/volume.md, "Changes").
#![tactic(auto)]

mod follow_laws;
mod following;
mod joining;
mod laws;
mod parts;

pub use follow_laws::{changes_follow, effects_follow, followed_change, one_cell_holds_a_key};
pub use following::follow;
pub use joining::{JoinFault, join};
pub use laws::{
    joined_change, patches_join, placing_all_keeps_a_tree, placing_commutes, placing_keeps_a_tree,
    root_has_to_be_old, trees_differ_by_patches,
};
pub use parts::{joined_change_of_a_part, part_law, placing_keeps_a_part, trees_and_parts};
pub use r4_cell::{Cell, Cells, Change, Fresh, Root, least, new_cell, put_pointer, top};

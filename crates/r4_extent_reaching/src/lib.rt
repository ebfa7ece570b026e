//! What a command reads and writes of the cells that were met for it, bodies in extents included (docs/volume.md,
//! "Reach").
#![tactic(auto)]

mod laws;
mod reached;
mod telling;

pub use laws::{
    alike_demands_mark_alike, changes_stay_in_trees, marked_cells_are_a_reach, told_kinds_are_so,
};
pub use r4_extent_counts::cells_coming;
pub use r4_extent_touching::{
    Asked, Seeing, key_after, keys_asked, plan, see_for, touch_all, touch_left,
};
pub use r4_reaching::{Cell, Cells, Root, commands_change_lawful_keys, in_order, least, part_met};
pub use reached::Reach;
pub use telling::stands_in_extents;

//! A worked session of three atoms, and why each thing is asked of a command's change (docs/sets.md). Each law is the
//! contract of a function that does nothing.
#![tactic(auto)]

mod needed;
mod worked;

pub use needed::{
    all_is_asked, bodies_are_shown_where_they_grow, cells_of_others_are_not_changed,
    cells_of_others_are_not_read, changes_are_patches_of_the_tree, changes_do_what_commands_do,
    keys_that_commands_change_are_told, sealed_atoms_are_not_changed,
    stat_data_are_read_with_bytes, units_stay_in_their_cells,
};
pub use worked::{three_changes, three_layers};

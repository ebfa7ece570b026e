//! What a set of transactions has of all that was done: lawful contents and counts, images, and the keys of commands
//! (docs/sets.md).
#![tactic(auto)]

mod images;
mod runs;
mod touched;

pub use images::{
    atoms_without_cells_add_nothing, images_and_trees, layers_are_told, layers_are_volumes,
};
pub use runs::{chosen_commands, chosen_commands_count, chosen_commands_stay_lawful};
pub use touched::{built_changes_do_commands, commands_show_bodies, moved_units_are_files};

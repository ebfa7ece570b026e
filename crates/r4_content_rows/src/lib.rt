//! Why laws of commands have their conditions (docs/commands.md, "Examples"). Each law is the
//! contract of a function that does nothing.
#![tactic(auto)]

mod conditions;
mod counted;
mod fewer;
mod names;
mod premises;
mod refused;
mod widths;
mod written;

pub use conditions::{beyond_offsets, byte_left, grown_over, not_found_again, unasked_stats};
pub use counted::each_command_is_counted;
pub use fewer::{fewer_conditions_are_needed, fewer_conditions_suffice};
pub use names::{moved_paths_follow, other_names_stay, other_paths_stay};
pub use premises::{both_have_to_spare, lawful_contents_do_not_stay, what_was_seen_has_to_rise};
pub use refused::{refusals_keep_lawful, refused_is_not_found};
pub use widths::{attributes_keep_their_widths, numbers_of_attributes_are_bounded};
pub use written::{ids_in_use, names_of_no_bytes, numbers_past_fields, sizes_past_offsets};

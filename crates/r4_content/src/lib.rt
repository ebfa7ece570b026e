//! What scripts ask of a volume and what they are answered: paths, commands and replies.
#![tactic(auto)]

mod command;
mod comparing;
mod edits;
mod examples;
mod laws;
mod names;
mod path;
mod reply;
mod seen;

pub use command::Command;
pub use edits::{ByteRun, Edits, FilledInterval, Interval};
pub use examples::{
    counts_examples, empty_volume_examples, other_contents_examples, touched_examples,
};
pub use laws::{
    apart_commands_commute, commands_are_local, commands_ask_for_stats,
    lawful_contents_stay_lawful, lists_are_contents, moved_units_are_visible, objects_are_counted,
    refusals_change_nothing, seen_suffices, volumes_are_lawful, walks_agree,
    what_is_changed_is_found, what_is_written_is_read,
};
pub use names::Names;
pub use path::Path;
pub use r4_base::{Bytes, Name};
pub use reply::Reply;
pub use seen::{Seen, SeenPart};

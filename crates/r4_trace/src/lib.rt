//! The trace of a run: its entries in their order, the text of each, and which traces are legal
//! (docs/scripts.md, "The trace"; docs/traces.md).
#![tactic(auto)]

mod entry;
mod histories;
mod laws;
mod safety;
mod text;
mod trace;

pub use entry::Entry;
pub use histories::{
    acknowledged_are_first, all_that_began, answers_may_follow, commits_are_in_order,
    earlier_traces_are_legal, finished_is_whole, first_atoms_stay, jobs_may_grow,
    less_may_be_named, places_tell,
};
pub use laws::{line_law, trace_text_grows};
pub use safety::{
    Images, fresh_images_are_empty, named_is_crash_safe, steps_stay_safe, what_a_trace_promises,
};
pub use text::line;
pub use trace::Trace;

//! The summary of a run of the generated workload (docs/scripts.md, "The generated workload").
#![tactic(auto)]

mod following;
mod kept;
mod laws;
mod printing;
mod totals;

pub use laws::{bytes_are_not_asked, edits_of_what_is_kept};
pub use printing::print_summary;
pub use totals::{Summary, summarize, write_summary};

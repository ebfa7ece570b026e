//! What is durable in a run that began with a volume: what images mean, what is kept from the opening on, and what a
//! crash leaves at each moment of a commit (docs/durable.md).
#![tactic(auto)]

mod kept;
mod meaning;
mod sealing;

pub use kept::{
    commits_are_kept, empty_atoms_are_kept, kept_runs_can_be_sealed, kept_runs_go_on,
    moments_of_commits, openings_keep_volumes, steps_are_kept, steps_are_kept_on_devices,
};
pub use meaning::{images_mean_volumes, named_runs_are_crash_safe};
pub use r4_flushed::CommitPlan;
pub use sealing::{crashes_keep_contents, sealed_atoms_have_their_content};

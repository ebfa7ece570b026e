//! Why a commit is made as it is: laws that say of a wrong body what it breaks; how many blocks a
//! volume has left; and how long a commit takes (docs/durable.md, "Wrong bodies", "Space comes back"
//! and "How long a commit takes"). Each law is the contract of a function that does nothing.
#![tactic(auto)]

mod bounded;
mod counted;
mod orders;
mod spaces;
mod told;

pub use bounded::sealed_atoms_are_committed_soon;
pub use counted::{blocks_are_counted, space_comes_back};
pub use orders::{
    headers_are_written_behind_logs, homes_are_written_behind_headers, orders_are_atomic,
};
pub use spaces::{
    commits_settle_behind_the_footer, freed_blocks_wait_for_the_commit, logs_are_given_back,
};
pub use told::{commits_are_told_behind_the_sync, one_atom_changes_something};

//! Small traces, legal and not, by computation (docs/traces.md). Each law is the contract of a
//! function that does nothing.
#![tactic(auto)]

mod broken;
mod legal;

pub use broken::{refused_by_ids, refused_by_order, refused_by_replies, refused_by_the_job};
pub use legal::{legal_examples, whole_examples};

//! Where a check finds no fault (docs/check.md).
#![tactic(auto)]

mod laws;

pub use laws::faults_are_none_where_there_is_a_volume;
pub use r4_check::{ListFault, Verdict, check, list};

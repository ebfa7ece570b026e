//! A device that is known to go on from where a run began (docs/core.md, "Threads").
#![tactic(auto)]

mod from_start;
mod origin;

pub use from_start::FromStart;
pub use origin::Origin;

//! What is to be done next: one step of serving the scripts (docs/core.md, "Taking").
#![tactic(auto)]

mod answering;
mod committing;
mod following;
mod looking;
mod standing;
mod taken;
mod taking;

pub use r4_served::{Core, Made, OpenFault, OpenWhy, Step, Wanted, flush, refuse};
pub use standing::pending;
pub use taken::Taken;
pub use taking::take;

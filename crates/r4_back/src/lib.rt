//! Tasks that come back without a change, and a next command that is refused by itself
//! (docs/core.md, "Coming back" and "A job that grows").
#![tactic(auto)]

mod finding;
mod giving;
mod next;
mod refusing;

pub use finding::{is_gone, is_out, matched};
pub use giving::{give_back, recall};
pub use next::{is_refusable, refusals_have_room, refuse_next};
pub use r4_matching::{BuildFault, Built, Differs, Mismatch, Task, build};
pub use r4_next::{
    Core, Made, OpenFault, OpenWhy, Step, Taken, Wanted, flush, pending, refuse, take,
};
pub use refusing::{refuse_back, refuse_memory};

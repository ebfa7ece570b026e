//! What a core begins with: the log of a device put in place, its image opened, and the turns of a
//! job (docs/core.md, "Opening").
#![tactic(auto)]

mod fault;
mod starting;

pub use fault::{OpenFault, OpenWhy};
pub use r4_rooms::{Wanted, make_room};
pub use starting::{Start, start_of};

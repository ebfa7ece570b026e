//! Jobs that run on volumes in memory, for tests of the core (docs/core.md): volumes and cores on
//! them, a driver that does all that is to be done in a given way, commands that come later, and
//! what is told of a run.
#![tactic(auto)]

mod images;
mod opening;
mod pushing;
mod running;
mod telling;

pub use images::{Image, device};
pub use opening::{next, opened, opened_on};
pub use pushing::{push_all, run_pushed};
pub use r4_apply::{
    Core, Taken, Wanted, flush, give_back, is_refusable, pending, recall, refuse_memory,
    refuse_next,
};
pub use running::{After, ONE, Told, Way, applied, run, told};
pub use telling::Log;

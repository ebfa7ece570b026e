//! Replay: the committed transactions of the log, put in their place (docs/layout.md, "Replay").
#![tactic(auto)]

mod chain;
mod fault;
mod heads;
mod log;
mod overlap;
mod place;
mod replaying;
mod size;
mod txn;

pub use fault::ReplayFault;
pub use log::{Log, read_log};
pub use r4_base::LogFault;
pub use replaying::{PlacedLog, replay};

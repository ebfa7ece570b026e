//! The program's one call, over any device, source and sink (docs/program.md).
#![tactic(auto)]

mod top;

pub use r4_offline::Status;
pub use top::r4_main;

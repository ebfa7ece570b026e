//! A run over a device, of scripts whose text is read or of a generated workload: the volume is opened,
//! shared by threads, served to its end, and the trace or its summary printed (docs/program.md, "Running").
#![tactic(auto)]

mod ending;
mod generated;
mod naming;
mod running;
mod scripts;
mod session;
mod showing;
mod spelling;

pub use generated::run_generated;
pub use running::{Ended, run_job};
pub use scripts::run_scripts;
pub use showing::Shown;
pub use spelling::Spelling;

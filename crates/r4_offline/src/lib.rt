//! The commands on an image that nobody else works on (docs/program.md).
#![tactic(auto)]

mod checking;
mod listing;
mod making;
mod obeying;
mod replaying;
mod status;

pub use listing::print_listing;
pub use making::make_volume;
pub use obeying::obey;
pub use replaying::replay_image;
pub use status::Status;

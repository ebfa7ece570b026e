//! A device that stops, over any other, and a file as a device.
#![tactic(auto)]

mod calls;
mod file;
mod held;
mod picks;
mod stop;
mod torn;
mod trouble;

pub use file::FileDevice;
pub use stop::{StopDevice, Unmade};
pub use trouble::{FileCall, Trouble};

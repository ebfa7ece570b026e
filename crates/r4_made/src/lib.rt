//! The change and the reply of any task, wherever the body stands that its command changes
//! (docs/volume.md, "Building").
#![tactic(auto)]

mod allowing;
mod body;
mod gathering;
mod growing;
mod losing;
mod making;
mod putting;
mod spreading;
mod turning;

pub use making::make;

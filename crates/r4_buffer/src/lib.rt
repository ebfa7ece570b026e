//! The cells in memory by their names, and what one step reads through them (docs/buffer.md).
#![tactic(auto)]

mod buffer;
mod changes;
mod entry;
mod laws;
mod reading;
mod sweeping;

pub use buffer::Buffer;
pub use laws::{ancestors_law, captured_law};
pub use r4_base::{BlockNo, NodeId};
pub use r4_search::Cell;
pub use reading::Reading;

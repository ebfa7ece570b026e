//! The opening of an image: its superblocks, its bitmaps, and the head of its log (docs/layout.md).
#![tactic(auto)]

mod homes;
mod opened;
mod opening;

pub use opened::{Opened, Unopened};
pub use opening::{open_image, open_in_place};
pub use r4_base::{BlockNo, LayoutFault, Super40};

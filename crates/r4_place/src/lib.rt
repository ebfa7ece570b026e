//! Which blocks the cells of an atom get (docs/space.md, "Places").
#![tactic(auto)]

mod choosing;
mod placed;

pub use choosing::choose;
pub use placed::{How, Placed};
pub use r4_cell::{Cell, on_disk_law};

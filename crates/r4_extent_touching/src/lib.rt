//! The cells that hold the keys which a command touches, in leaves and in extents (docs/volume.md, "Reach").
#![tactic(auto)]

mod beside;
mod laws;
mod touching;

pub use beside::touch_left;
pub use laws::held_cells_are_touched;
pub use r4_touching::{Asked, Seeing, key_after, keys_asked, plan, see_for, stretch_from};
pub use touching::touch_all;

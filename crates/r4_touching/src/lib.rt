//! The cells that hold the keys which a command changes, met leaf by leaf (docs/volume.md, "Reach").
#![tactic(auto)]

mod changed;
mod touching;

pub use changed::{changed_keys, keys_asked};
pub use r4_cell::{Cell, Root, least, top};
pub use r4_seeing::{Asked, Seeing, key_after, plan, see_for, stretch_from};
pub use touching::touch;

//! Cells: nodes and data blocks, each with the keys that it may hold, and changes of them (docs/volume.md, "Cells").
#![tactic(auto)]

mod body;
mod cell;
mod change;
mod laws;
mod range;
mod reading;
mod refused;

pub use cell::Cell;
pub use change::{Cells, Change, Fresh, Root};
pub use laws::{cell_law, equal_keys_law, on_disk_law};
pub use r4_base::{CellFault, Key, NodeId};
pub use r4_node40::{ItemView, NodeMut, NodeView};
pub use r4_twig::{pointer, put_pointer};
pub use range::{least, top};
pub use reading::{new_cell, read_cell};
pub use refused::{CellRefused, ImageFault};

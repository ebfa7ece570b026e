//! The search in a tree: the cells from the root down to the one that has a key (docs/volume.md, "The tree").
#![tactic(auto)]

mod covering;
mod device;
mod inside;
mod keeping;
mod pool;

pub use covering::cover;
pub use device::cell_from;
pub use inside::{Child, child_of, place_of};
pub use keeping::{Keeping, fault_of_place};
pub use pool::{FetchFault, Pool};
pub use r4_base::{BlockNo, CellFault, Key, NodeId};
pub use r4_cell::{Cell, Root, least, top};

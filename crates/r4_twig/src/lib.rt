//! Extents and node pointers: the bodies of two kinds of items (docs/layout.md, "Items").
#![tactic(auto)]

mod edit;
mod fault;
mod laws;
mod pointers;
mod units;
mod view;

pub use edit::{join, replace, split_at};
pub use laws::{cut_law, fault_law, join_law};
pub use pointers::{pointer, put_pointer};
pub use r4_base::{BlockNo, ExtentFault, Unit};
pub use view::ExtentView;

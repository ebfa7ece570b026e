//! Whose turn it is: a job, and how far each of its scripts is (docs/scripts.md).
#![tactic(auto)]

mod job;
mod laws;
mod out;
mod turn;
mod turns;

pub use laws::order_law;
pub use out::{MOST_NEW, Nodes, Numbers, Out, Scope};
pub use r4_cell::{Cell, Cells, Fresh, NodeView, new_cell};
pub use turn::{Open, Pending};
pub use turns::Turns;

//! Nodes, read and written where they stand (docs/layout.md, "Nodes").
#![tactic(auto)]

mod edit;
mod fields;
mod laws;
mod node_mut;
mod view;

pub use edit::Full;
pub use laws::{body_law, edit_law, node_law, span_law};
pub use node_mut::NodeMut;
pub use r4_base::NodeFault;
pub use view::{ItemView, NodeView};

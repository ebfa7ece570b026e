//! Which of the cells that were met a change reads and writes (docs/volume.md, "Reach").
#![tactic(auto)]

mod asking;
mod demands;
mod hearing;
mod marking;

pub use demands::{Asking, Demands, Heard};
pub use hearing::child_at;
pub use marking::{Marks, mark};
pub use r4_node40::NodeView;
pub use r4_search::{FetchFault, Pool};

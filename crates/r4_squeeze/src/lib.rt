//! Slums packed to the left (docs/volume.md, "Squeezing").
#![tactic(auto)]

mod filled;
mod items;
mod leaves;
mod nodes;
mod numbering;
mod parent;
mod slum;
mod squeezing;
mod twigs;

pub use filled::Filled;
pub use items::{NodeItem, add_pointers};
pub use nodes::pack_nodes;
pub use numbering::{numbered, numbers_of};
pub use slum::is_slum;
pub use squeezing::{items_of_all, squeeze};
pub use twigs::{filled_of, pieces_of_all};

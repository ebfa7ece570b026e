//! What a command reads and writes of the cells that were met for it (docs/volume.md, "Reach").
#![tactic(auto)]

mod answer;
mod gathering;
mod laws;
mod objects;
mod parting;
mod reached;
mod reaching;

pub use gathering::in_order;
pub use laws::{
    marked_cells_are_a_reach, touched_cells_were_met, what_was_found_stays, what_was_met_is_listed,
    what_was_seen_stands,
};
pub use parting::part_met;
pub use r4_cell::{Cell, Cells, Root, least};
pub use r4_search::{FetchFault, Pool};
pub use r4_spared::commands_change_lawful_keys;
pub use r4_touching::touch;
pub use reached::Reach;
pub use reaching::reach_in_leaves;

//! What of a command's edits one leaf gets (docs/volume.md, "Which edits a leaf gets").
#![tactic(auto)]

mod adding;
mod keys;
mod leaf_edits;
mod making;
mod touching;
mod values;

pub use keys::{has, part_of};
pub use leaf_edits::LeafEdits;
pub use making::edits_of_leaf;
pub use r4_reach::{
    Cell, Cells, KeyRange, Leaf, Level, Root, add, leaf_level, least, pieces_of_cell, place_of,
    put_among, remake, splice, take_number,
};
pub use touching::{meets_fills, meets_intervals, meets_runs, touches_leaf};

//! What the edits of a command are, so that leaves can take them (docs/volume.md, "Which edits a leaf gets").
#![tactic(auto)]

mod laws;

pub use laws::{accepted_cells_are_lawful, leaves_stay_small, plans_suit_leaves};
pub use r4_leaf_edits::{
    edits_of_leaf, has, meets_fills, meets_intervals, meets_runs, part_of, pieces_of_cell,
    touches_leaf,
};

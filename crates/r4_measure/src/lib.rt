//! How many cells may still come in the place of each cell of a tree, while the leaves of a command are edited one
//! after another (docs/volume.md, "What may still come").
#![tactic(auto)]

mod examples;
mod laws;
mod twig_laws;

pub use examples::fresh_volumes_are_reached;
pub use laws::{
    a_budget_suffices, each_leaf_has_its_turn, edits_keep_a_budget, reach_suffices_for_all_edits,
    turns_keep_the_measure, what_is_asked_is_a_budget,
};
pub use r4_reach::{Cell, Cells, Change, Fresh};
pub use r4_work::{
    LeafParts, WorkingSet, add_pointer, by_place, cells_of, left_part, pieces_parted, right_part,
};
pub use twig_laws::{
    a_budget_suffices_for_twigs, grafts_keep_a_budget, twig_turns_keep_the_measure,
    what_is_asked_of_twigs_is_a_budget,
};

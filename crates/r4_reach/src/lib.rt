//! Which cells of a tree a command reads and writes (docs/volume.md, "Reach").
#![tactic(auto)]

mod examples;
mod laws;

pub use examples::{leaf_examples, piece_examples, touched_examples, twig_examples};
pub use laws::{
    answers_hold_in_the_tree, commands_ask_plainly, reach_is_the_same_without_others,
    reach_rests_on_its_cells, touched_keys_are_held, written_cells_suffice,
};
pub use r4_path::{
    Cell, Cells, Change, Fresh, Given, KeyRange, Leaf, Level, Root, add, insert, leaf_level, least,
    pieces_of_cell, place_of, put_among, remake, splice, tail_part, take_number, write_stat,
};

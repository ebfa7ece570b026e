//! Paths of a tree and the steps of a change along them: cells of one level that come in the place of one, pointers above
//! them, roots (docs/volume.md, "Edits").
#![tactic(auto)]

mod appending;
mod ascent;
mod below;
mod climbing;
mod gathering;
mod grafting;
mod growing;
mod laws;
mod leaves;
mod level;
mod numbers;
mod pieces;
mod pointing;
mod row;
mod sharing;
mod twig_laws;
mod twigs;

pub use appending::append;
pub use ascent::rise;
pub use gathering::add;
pub use grafting::{graft, graft_below};
pub use growing::{grow, root_over};
pub use laws::path_changes_are_patches;
pub use leaves::leaf_level;
pub use level::Level;
pub use numbers::take_number;
pub use pieces::{end_behind, pieces_of_cell, pieces_with, put_among};
pub use r4_graft::{TwigPart, TwigPiece, extent_pieces, pack_twigs, part_at, place_of, splice};
pub use r4_leaf::{
    Given, KeyRange, Leaf, NodeMut, NodeView, cut_out, insert, middle_key, put_in, remake,
    tail_part, write_stat,
};
pub use r4_patch::{Cell, Cells, Change, Fresh, Root, follow, least, new_cell};
pub use row::Row;
pub use sharing::{pair, two};
pub use twig_laws::{
    an_extent_behind_a_leaf, counted_numbers_serve, order_says_nothing, twig_changes_are_patches,
};

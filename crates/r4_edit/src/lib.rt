//! Edits of a tree, each as a patch of the cells of a path (docs/volume.md, "Edits").
#![tactic(auto)]

mod among;
mod cutting;
mod editing;
mod graft_laws;
mod leaf_parts;
mod over;
mod remaking;
mod splitting;

pub use cutting::pieces_parted;
pub use editing::{cut, insert, leaves_without};
pub use graft_laws::{
    an_extent_by_pieces, grafts_are_patches, keys_of_an_extent_are_among_extents,
    numbers_serve_below,
};
pub use leaf_parts::{LeafParts, left_part, right_part};
pub use over::{add_pointer, cells_of};
pub use r4_path::{
    Cell, Cells, Change, Fresh, Given, KeyRange, TwigPart, TwigPiece, add, extent_pieces, follow,
    graft_below, pieces_of_cell, place_of, splice, take_number,
};
pub use remaking::change_leaf;
pub use splitting::split;

//! The working set of a command: the cells of its task, with what was changed of them so far as one change
//! (docs/volume.md, "The working set").
#![tactic(auto)]

mod laws;
mod ordered;
mod remaking;
mod working;

pub use laws::{paths_ascend, standing_cells_are_apart};
pub use ordered::by_place;
pub use r4_edit::{
    Cell, Change, Fresh, KeyRange, LeafParts, TwigPart, TwigPiece, add, add_pointer, cells_of,
    extent_pieces, graft_below, left_part, pieces_of_cell, pieces_parted, place_of, right_part,
    splice, take_number,
};
pub use working::WorkingSet;

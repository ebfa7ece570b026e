//! A command's whole change of the cells of its task, where its body comes out of tails, or had no
//! bytes, to extents below one twig (docs/volume.md, "Bodies in extents").
#![tactic(auto)]

mod finding;
mod laws;
mod leaves;
mod suiting;
mod turning;

pub use finding::turning_among;
pub use laws::found_turns_can_be_made;
pub use r4_extent_shrink::{
    BodyChange, Cell, Change, Fresh, ItemView, POINTER_ROOM, Root, SizedBody, TwigPart, TwigPiece,
    Way, WorkingSet, body_changed, cells_coming, change_of_growing, change_of_losing,
    changes_pieces, extents_have, may_grow, may_lose, node_bytes, pieces_of_cell, pointer,
    touches_leaf, twig_bytes, twigs_coming, twigs_losing, unit_end,
};
pub use r4_extent_turn::Turning;
pub use suiting::{may_turn, twig_turning};
pub use turning::change_of_turning;

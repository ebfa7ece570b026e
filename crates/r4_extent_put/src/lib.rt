//! A command's whole change of the cells of its task, where values come among extents and its body,
//! if it has one, stands in tails (docs/volume.md, "Bodies in extents").
#![tactic(auto)]

mod allowing;
mod coming;
mod finding;
mod laws;
mod putting;

pub use allowing::may_put;
pub use coming::{leaves_put, twigs_putting};
pub use finding::putting_among;
pub use laws::found_puts_can_be_made;
pub use putting::change_of_putting;

// what crates above name by way of this one
pub use r4_extent_turned::{
    BodyChange, Cell, Change, Fresh, ItemView, POINTER_ROOM, Root, SizedBody, Turning, TwigPart,
    TwigPiece, body_changed, change_of_growing, change_of_losing, change_of_turning,
    changes_pieces, may_grow, may_lose, may_turn, node_bytes, pieces_of_cell, pointer,
    turning_among, twig_turning, twigs_coming, twigs_losing, unit_end,
};

//! Whether a command's whole change may be made of the cells of its task, where its body stands in
//! extents and loses no blocks (docs/volume.md, "Bodies in extents").
#![tactic(auto)]

mod coming;
mod growing;
mod laws;
mod lying;
mod twigs;

pub use coming::{extra_twigs, twigs_coming};
pub use growing::may_grow;
pub use laws::{found_growths_can_be_made, growths_are_found};
pub use lying::{have_room, lie_in_leaves};
pub use r4_extent_change::{
    Cell, Change, Fresh, ItemView, Root, WorkingSet, cells_coming, change_of_growing,
    change_of_losing, gone_of, node_bytes, pointer, without_bytes,
};
pub use r4_twig_asks::{
    BodyChange, KeyRange, POINTER_ROOM, SizedBody, TwigPart, TwigPiece, Way, body_changed,
    changes_pieces, extents_have, gets_some, pieces_after, pieces_of_cell, touches_leaf,
    twig_bytes, unit_end,
};
pub use twigs::ends_by;

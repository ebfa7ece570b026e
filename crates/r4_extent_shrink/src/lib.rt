//! Whether a command's whole change may be made of the cells of its task, where its body stands in
//! extents and loses blocks (docs/volume.md, "Bodies in extents").
#![tactic(auto)]

mod coming;
mod going;
mod laws;
mod shrinking;

pub use coming::twigs_losing;
pub use laws::found_losses_can_be_made;
pub use r4_extent_growth::{
    BodyChange, Cell, Change, Fresh, ItemView, KeyRange, POINTER_ROOM, Root, SizedBody, TwigPart,
    TwigPiece, Way, WorkingSet, body_changed, cells_coming, change_of_growing, change_of_losing,
    changes_pieces, extents_have, extra_twigs, gets_some, have_room, lie_in_leaves, may_grow,
    node_bytes, pieces_after, pieces_of_cell, pointer, touches_leaf, twig_bytes, twigs_coming,
    unit_end, without_bytes,
};
pub use shrinking::may_lose;

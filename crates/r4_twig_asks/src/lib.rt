//! What a twig asks for where a body stands in extents (docs/volume.md, "Reach").
#![tactic(auto)]

mod asking;
mod weighing;

pub use asking::{asking_for, comes_into, moves, twig_asks};
pub use r4_extent_demands::{
    Asking, BodyChange, Demands, Heard, KeyRange, Marks, POINTER_ROOM, SizedBody, TwigPart,
    TwigPiece, Way, all_more, body_changed, bytes_after, changes_pieces, child_at, comes_first,
    commands_of_extents_may_ask, edits_of_leaf, extents_have, gets_some, is_of_body, keys_of,
    low_range, mark, meets_intervals, node_bytes, over, part_of, pieces_after, pieces_of_cell,
    place_of, touches_leaf, unit_end,
};
pub use weighing::twig_bytes;

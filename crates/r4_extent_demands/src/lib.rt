//! What a command asks of a twig where a body stands in extents (docs/volume.md, "Reach").
#![tactic(auto)]

mod changing;
mod cutting;
mod extents;
mod gaining;
mod keys;
mod laws;
mod parting;
mod piecing;
mod putting;
mod ranges;
mod running;
mod sized_body;

pub use changing::{changes_pieces, changes_some};
pub use cutting::{cut, taken_up, unit_end};
pub use gaining::gets_some;
pub use keys::is_of_body;
pub use laws::commands_of_extents_may_ask;
pub use parting::part_each;
pub use piecing::{comes_first, pieces_after};
pub use putting::{keys_of, put_among};
pub use r4_bodies::{
    Asking, BodyChange, Cell, Demands, Heard, KeyRange, Marks, POINTER_ROOM, all_more,
    body_changed, bytes_after, child_at, edits_of_leaf, growing, low_range, mark, meets_intervals,
    node_bytes, over, part_of, pieces_of_cell, touches_leaf,
};
pub use r4_graft::{TwigPart, TwigPiece, place_of};
pub use ranges::{Way, extents_have};
pub use sized_body::SizedBody;

//! Which file's body a command's edits change (docs/volume.md, "Reach").
#![tactic(auto)]

mod body_change;
mod finding;
mod keys;
mod laws;
mod sizes;
mod telling;

pub use body_change::{BodyChange, body_changed};
pub use laws::commands_set_bytes_of_bodies;
pub use r4_leaf_demands::{
    Asking, Cell, Demands, Heard, KeyRange, LeafDemands, Marks, POINTER_ROOM, all_more,
    bytes_after, child_at, edits_of_leaf, growing, has, intervals_have, low_range, mark,
    meets_fills, meets_intervals, meets_runs, node_bytes, over, part_of, pieces_of_cell,
    touches_leaf,
};
pub use telling::{BodyTold, told_by_body};

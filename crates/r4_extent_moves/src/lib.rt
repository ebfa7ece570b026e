//! What a change does to the content of a tree, of which the body that it changes stands in extents afterwards
//! (docs/volume.md, "Bodies in extents").
#![tactic(auto)]

mod laws;

pub use laws::{
    bodies_stand_in_extents, grown_bodies_move, lost_bodies_move, moved_bodies_are_edited,
};
pub use r4_allowed::{
    Allowance, BodyChange, Cell, SizedBody, Turning, TwigPart, TwigPiece, allowances, body_changed,
    change_of_growing, change_of_losing, change_of_putting, change_of_turning, changes_pieces,
    is_allowed, leaves_put, may_grow, may_lose, may_put, may_turn, pieces_of_cell, turning_among,
    twig_turning, twigs_coming, twigs_losing, twigs_putting, unit_end,
};
pub use r4_applied::{BuildFault, Built, Change, ObjectCounts, Task, build, plan};

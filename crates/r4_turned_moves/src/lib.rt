//! What a change does to the content of a tree, of which a body that stood in tails, or had no
//! bytes, stands in extents afterwards (docs/volume.md, "Bodies in extents").
#![tactic(auto)]

mod laws;

pub use laws::turned_bodies_move;
pub use r4_extent_moves::{
    Allowance, BodyChange, BuildFault, Built, Cell, Change, ObjectCounts, SizedBody, Task, Turning,
    TwigPart, TwigPiece, allowances, body_changed, build, change_of_growing, change_of_losing,
    change_of_putting, change_of_turning, changes_pieces, is_allowed, leaves_put, may_grow,
    may_lose, may_put, may_turn, pieces_of_cell, plan, turning_among, twig_turning, twigs_coming,
    twigs_losing, twigs_putting, unit_end,
};

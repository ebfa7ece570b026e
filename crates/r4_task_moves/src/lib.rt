//! What the change of a task does, where the body that its command changes stands in extents
//! afterwards: it moves units as the command means (docs/volume.md, "Bodies in extents").
#![tactic(auto)]

mod laws;

pub use laws::{body_moves_are_meant, tasks_change_one_body};
pub use r4_turned_moves::{
    Allowance, BodyChange, BuildFault, Built, Cell, Change, ObjectCounts, SizedBody, Task, Turning,
    TwigPart, TwigPiece, allowances, body_changed, build, change_of_growing, change_of_losing,
    change_of_putting, change_of_turning, changes_pieces, is_allowed, leaves_put, may_grow,
    may_lose, may_put, may_turn, pieces_of_cell, plan, turning_among, twig_turning, twigs_coming,
    twigs_losing, twigs_putting, unit_end,
};

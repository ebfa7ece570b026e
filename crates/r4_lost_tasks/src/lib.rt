//! What the change of a task does whose body stands in extents and loses blocks (docs/volume.md,
//! "Bodies in extents").
#![tactic(auto)]

mod going;
mod laws;

pub use going::blocks_have_twigs;
pub use laws::{lost_tasks_move, twigs_have_blocks};
pub use r4_task_moves::{
    Allowance, BodyChange, BuildFault, Built, Cell, Change, ObjectCounts, SizedBody, Task, Turning,
    TwigPart, TwigPiece, allowances, body_changed, build, change_of_growing, change_of_losing,
    change_of_putting, change_of_turning, changes_pieces, is_allowed, leaves_put, may_grow,
    may_lose, may_put, may_turn, pieces_of_cell, plan, turning_among, twig_turning, twigs_coming,
    twigs_losing, twigs_putting, unit_end,
};

//! What the change of a task does whose body comes out of tails, or had no bytes, to extents
//! (docs/volume.md, "Bodies in extents").
#![tactic(auto)]

mod laws;

pub use laws::turned_tasks_move;
pub use r4_grown_tasks::{
    Allowance, BodyChange, BuildFault, Built, Cell, Change, ObjectCounts, SizedBody, Task, Turning,
    allowances, blocks_have_twigs, body_changed, build, bytes_have_places, change_of_growing,
    change_of_losing, change_of_putting, change_of_turning, is_allowed, leaves_put, may_grow,
    may_lose, may_put, may_turn, plan, turning_among, twig_turning, twigs_coming, twigs_losing,
    twigs_putting,
};

//! What the change of a task does whose body stands in extents and loses no blocks (docs/volume.md,
//! "Bodies in extents").
#![tactic(auto)]

mod covering;
mod laws;
mod places;

pub use laws::grown_tasks_move;
pub use places::bytes_have_places;

// what crates above name by way of this one
pub use r4_lost_tasks::{
    Allowance, BodyChange, BuildFault, Built, Cell, Change, ObjectCounts, SizedBody, Task, Turning,
    allowances, blocks_have_twigs, body_changed, build, change_of_growing, change_of_losing,
    change_of_putting, change_of_turning, is_allowed, leaves_put, may_grow, may_lose, may_put,
    may_turn, plan, turning_among, twig_turning, twigs_coming, twigs_losing, twigs_putting,
};

//! What the change of a task does that puts values among extents: it moves units as the command
//! means (docs/volume.md, "Bodies in extents").
#![tactic(auto)]

mod lawful;
mod laws;
mod standing;

pub use lawful::have_lawful_keys;
pub use laws::put_tasks_move;
pub use standing::look_at_twigs;

// what crates above name by way of this one
pub use r4_turned_tasks::{
    Allowance, BodyChange, BuildFault, Built, Cell, Change, ObjectCounts, SizedBody, Task, Turning,
    allowances, blocks_have_twigs, body_changed, build, bytes_have_places, change_of_growing,
    change_of_losing, change_of_putting, change_of_turning, is_allowed, leaves_put, may_grow,
    may_lose, may_put, may_turn, plan, turning_among, twig_turning, twigs_coming, twigs_losing,
    twigs_putting,
};

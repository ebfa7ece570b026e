//! A body comes out of tails, or had no bytes, to extents: the turn of its twig (docs/volume.md,
//! "Bodies in extents").
#![tactic(auto)]

mod blocks;
mod keeping;
mod laws;
mod tails;
mod turning;

pub use laws::{
    measured_turns_may_be_made, turned_bodies_leave_leaves, turned_twigs_need_no_pointers_there,
    turned_twigs_need_what_is_asked, turned_twigs_set_bytes, turning_turns_set_bytes,
    turning_twigs_are_ready, turning_twigs_have_their_turn, turns_of_parts,
};
pub use r4_build::{Change, add, make_each};
pub use r4_extent_build::WorkingSet;
pub use r4_sight::parts_of;
pub use turning::{Turning, turn_out};

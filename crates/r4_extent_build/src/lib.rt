//! A command's change of the cells of its task, where its body stands in extents (docs/volume.md, "Bodies in extents").
#![tactic(auto)]

mod laws;
mod numbering;
mod turning;

pub use laws::{
    growing_turns_set_bytes, growing_twigs_are_ready, growing_twigs_have_their_turn,
    pieces_of_growing_bodies_may_be_packed, turned_twigs_leave_a_set, turned_twigs_set_bytes,
};
pub use numbering::{NumberedTwig, numbered};
pub use r4_extent_blocks::{Cell, Fresh, NodeMut, new_block, new_cell, overwritten, sets_bytes};
pub use r4_extent_demands::{SizedBody, keys_of, pieces_after};
pub use r4_twig_turns::{Below, KeyRange, TwigPart, TwigPiece, WorkingSet, add, regraft};
pub use turning::regraft_each;

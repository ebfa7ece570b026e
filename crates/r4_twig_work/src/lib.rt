//! Twigs that are packed anew and data blocks that get other bytes, as steps of a working set (docs/volume.md, "The
//! working set").
#![tactic(auto)]

mod regrafting;
mod renewing;

pub use r4_extent_edit::{
    KeyRange, TwigPart, TwigPiece, WorkingSet, add, pieces_of_cell, take_number,
};
pub use regrafting::{Below, regraft};
pub use renewing::renew;

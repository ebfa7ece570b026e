//! Edits of a twig's extents over holes, and the turn of tails to an extent; what each edit of a
//! twig does to units, as a property of its change alone (docs/volume.md, "Edits").
#![tactic(auto)]

mod laws;
mod middle;
mod setting;
mod turning;

pub use laws::{cut_edits_units, insert_edits_units, keys_of_a_span_may_be_cut};
pub use r4_work::{
    KeyRange, TwigPart, TwigPiece, WorkingSet, add, graft_below, pieces_of_cell, take_number,
};
pub use setting::set_extent;
pub use turning::turn;

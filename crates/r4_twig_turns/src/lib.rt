//! Twigs that are packed anew one after the other: each has its condition at its turn (docs/volume.md, "What may still
//! come").
#![tactic(auto)]

mod laws;

pub use laws::each_twig_has_its_turn;
pub use r4_twig_work::{
    Below, KeyRange, TwigPart, TwigPiece, WorkingSet, add, pieces_of_cell, regraft, take_number,
};

//! Pieces of a twig that are put among others, parted, or taken away (docs/volume.md, "Twigs").
#![tactic(auto)]

mod parting;
mod splicing;

pub use parting::part_at;
pub use r4_branch::{
    ItemView, NodeMut, NodeView, Twig, TwigPart, TwigPiece, extent_pieces, pack_twigs, pieces_of,
};
pub use splicing::{place_of, splice};

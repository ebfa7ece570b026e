//! Twigs that are taken apart into pieces, and packed of pieces (docs/volume.md, "Twigs").
#![tactic(auto)]

mod filling;
mod opening;
mod packing;
mod piece;
mod placing;
mod reading;
mod spelling;
mod twig;

pub use packing::pack_twigs;
pub use piece::{TwigPart, TwigPiece};
pub use r4_node40::{ItemView, NodeMut, NodeView};
pub use reading::{extent_pieces, pieces_of};
pub use twig::Twig;

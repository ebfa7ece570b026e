//! What commands make of bodies, wherever these stand (docs/volume.md, "Reach").
#![tactic(auto)]

mod laws;

pub use laws::{bodies_keep_file_sizes, edits_lie_in_one_body};

//! The listing of a volume, printed from its settled image (docs/program.md, "Listing").
#![tactic(auto)]

mod below;
mod body;
mod fault;
mod frame;
mod laws;
mod line;
mod listing;
mod lookup;
mod settled;
mod walk;

pub use fault::ListFault;
pub use laws::{
    path_is_listed, path_is_reached, walk_begins, walk_is_bounded, walk_leaves,
    walk_meets_directory, walk_meets_file, walk_passes,
};
pub use listing::list;
pub use r4_cell::ImageFault;

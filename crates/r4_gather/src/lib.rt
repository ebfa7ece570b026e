//! What commands ask for: the walk that sees one key after another (docs/commands.md, "Asking").
#![tactic(auto)]

mod commands;
mod entries;
mod files;
mod moves;
mod sight;
mod ways;

pub use commands::see_for;
pub use r4_file::plan;
pub use sight::{Asked, Sight};

//! Cells that name each other where they are new (docs/core.md, "Sealing").
#![tactic(auto)]

mod closed;
mod named;

pub use closed::are_closed;

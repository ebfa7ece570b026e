//! The rules on the objects of a volume, and the faults that a check names (docs/check.md, "Objects").
#![tactic(auto)]

mod fault;
mod heads;
mod held;
mod judging;
mod known;
mod objects;
mod reach;
mod sums;
mod table;
mod totals;

pub use fault::{Fault, What};
pub use held::{Facts, Held, Thing};
pub use objects::object_faults;

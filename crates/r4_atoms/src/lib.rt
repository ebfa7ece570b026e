//! Transactions, the atoms that they make together, and the nodes that an atom owns.
#![tactic(auto)]

mod atoms;
mod forest;
mod owners;
mod scripts;
mod things;

pub use atoms::Atoms;
pub use things::{Account, CaptureFault, StillOpen, Uncommitted};

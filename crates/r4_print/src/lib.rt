//! The text of a trace, written out line by line (docs/scripts.md, "The trace").
#![tactic(auto)]

mod printing;

pub use printing::{PrintFault, print_trace};

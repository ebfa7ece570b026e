//! The command `run` over memory, for its tests (docs/program.md, "Running"): the program's call with
//! words and a text of scripts, what it prints, rows of tests, and a gate at which others go first. All tests use one
//! kind of gate, so that the program is compiled for no other.
#![tactic(auto)]

mod calls;
mod gate;
mod rows;

pub use calls::{LIST, REPLAY, RUN, call, call_at, fresh, printed};
pub use gate::{Place, Slow};
pub use r4_top::r4_main;
pub use rows::Row;

//! What the words of the command line ask for (docs/program.md, "Words").
#![tactic(auto)]

mod options;
mod words;

pub use options::{RunWords, StopWords};
pub use words::{Command, Offline, read_words};

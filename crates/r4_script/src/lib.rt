//! Scripts: the text that says what is done, and the job that it spells (docs/scripts.md).
#![tactic(auto)]

mod command;
mod fault;
mod field;
mod job;
mod laws;
mod number;
mod path;
mod progress;
mod split;
mod text;
mod word;

pub use fault::{ParseFault, ScriptFault, What};
pub use job::{Commands, Job, Script, Scripts};
pub use laws::grammar_law;
pub use text::parse;

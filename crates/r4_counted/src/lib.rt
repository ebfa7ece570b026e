//! How many objects a command can take away, on what was seen (docs/commands.md, "Objects born
//! and gone").
#![tactic(auto)]

mod laws;

pub use laws::commands_take_one_object;

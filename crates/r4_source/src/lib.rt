//! The text of the scripts, read from a source (docs/scripts.md, "The text").
#![tactic(auto)]

mod laws;
mod reading;

pub use laws::longer_texts_spell_the_same;
pub use reading::{ReadFault, read_text};

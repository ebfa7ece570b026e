//! Room for a step that may not want memory, made in the parts of a core before it (docs/core.md,
//! "Room").
#![tactic(auto)]

mod making;
mod owing;

pub use making::{Wanted, make_room};
pub use owing::{Owed, tasks_owe};
pub use r4_kept::{Numbers, Volume};
pub use r4_turns::Turns;

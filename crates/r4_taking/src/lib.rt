//! What `take` changes of a core, one little step after another, and that what holds of a core
//! holds after each (docs/core.md): atoms fuse, a single command is refused, a command goes out as
//! a task.
#![tactic(auto)]

pub use r4_kept::{Buffer, Commit, Numbers, ObjectCounts, Step, Task, Volume};

//! What holds of the core of a volume between its steps (docs/core.md): what contracts see of it,
//! the invariant in its groups, what the little steps change, and lemmas that several of them need.
#![tactic(auto)]

mod parts;

pub use parts::{Commit, Numbers, Step, Volume};
pub use r4_buffer::Buffer;
pub use r4_build::{ObjectCounts, Task};

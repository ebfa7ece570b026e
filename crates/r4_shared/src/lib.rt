//! A core that threads share, and the steps that they take of it (docs/core.md, "Threads").
#![tactic(auto)]

mod finishing;
mod shared;
mod stepping;

pub use finishing::{finish, is_over};
pub use r4_apply::{Core, OpenFault, OpenWhy, Step};
pub use shared::{Shared, share_out};
pub use stepping::{Next, bring_back, next_step};

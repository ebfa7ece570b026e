//! What commands on objects and on the bytes of files change, on what was seen of a content (docs/commands.md).
#![tactic(auto)]

mod attributes;
mod bodies;
mod planning;
mod reading;

pub use attributes::{plan_chmod, plan_chown, plan_stat, plan_times};
pub use bodies::{body, plan_fill, plan_truncate, plan_write};
pub use planning::plan;
pub use reading::{end_of, plan_read};

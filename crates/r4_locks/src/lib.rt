//! Which tasks hold which nodes: many that read a node, or one that writes it.
#![tactic(auto)]

mod laws;
mod lock_table;
mod node_holds;
mod task_holds;
mod things;

pub use laws::{conflict_law, no_holds_law};
pub use lock_table::LockTable;
pub use task_holds::NewTask;
pub use things::{Held, Mode, TakeFault};

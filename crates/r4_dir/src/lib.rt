//! What commands on directories change, and the ways of all commands to the objects that they name, on what was seen of a
//! content (docs/commands.md).
#![tactic(auto)]

mod attributes;
mod editing;
mod entries;
mod finding;
mod making;
mod moving;
mod naming;
mod object;
mod planning;
mod removing;
mod ways;

pub use editing::{answer, set_attr, stat_key};
pub use finding::{SeenEntry, attr_at, entry_at};
pub use making::{plan_create, plan_link, plan_mkdir};
pub use moving::{is_loop, is_same_target, plan_rename};
pub use naming::plan_names;
pub use object::{Object, Place};
pub use planning::plan;
pub use removing::{plan_rmdir, plan_unlink};
pub use ways::{Found, is_dir, is_full, is_legal, name_key, object_at, step_to, walk_to};

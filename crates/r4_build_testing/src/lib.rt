//! A fresh volume's two cells as those of a task, and what is built of four commands on them, for
//! tests (docs/volume.md, "Building").
#![tactic(auto)]

mod mixed;
mod small;

pub use mixed::{byte, mixed_edits};
pub use small::{
    ENTRY, FILE, FILE_STAT, NEW_FILE, ROOT, build_creation, build_refused, build_times,
    build_writing, fresh_cells, with_change,
};

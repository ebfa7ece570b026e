//! Rows of neighbouring nodes that are packed anew, with pointers to other cells below, up to the root or to one cell that
//! stays one (docs/volume.md, "Edits").
#![tactic(auto)]

mod climbing;
mod laws;
mod moving;
mod parting;
mod placing;
mod repacking;
mod shifting;
mod twigs;

pub use climbing::{RowChange, climb};
pub use laws::{shifted_rows_are_changes, shifts_are_patches};
pub use parting::shift_parted;
pub use placing::place_in;
pub use repacking::repacked;
pub use shifting::shift;
pub use twigs::twigs_with;

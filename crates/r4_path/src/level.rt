//! One level of a change (docs/volume.md, "Edits").

use r4_patch::{Cell, Cells};
use std::sync::Arc;

/// A cell of the path, and those that come in its place.
#[derive(Drop)]
pub struct Level {
    pub old: Arc<Cell>,
    pub new: Cells,
}

//! What is known of a command before the cells that it changes are met.

use r4_content::{Edits, Interval};
use r4_extent_asks::SizedBody;

/// A command's edits, the body that they change, with where it stood, and the keys that are read besides to tell that.
#[derive(Drop)]
pub(crate) struct Known {
    pub(crate) edits: Edits,
    pub(crate) body: Option<SizedBody>,
    pub(crate) read: Option<Interval>,
}

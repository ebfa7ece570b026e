//! Bitmap blocks, read and written where they stand (docs/layout.md, "Bitmaps").
#![tactic(auto)]

mod edit;
mod view;

pub use edit::BitmapMut;
pub use view::BitmapView;

//! The edits of the leaves of a command, one leaf after another, each as long as what stands
//! suffices for it (docs/volume.md, "Bodies in extents").
#![tactic(auto)]

mod editing;
mod sufficing;

pub use editing::edit_each;

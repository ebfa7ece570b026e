//! Trees of two levels for tests of edits: what may be done with them is tried out, and then done.
#![tactic(auto)]

mod cells;
mod holes;
mod names;
mod remaking;
mod trials;

pub use cells::{
    DIRECTORY, Row, STAT, TAIL, ZEROS, byte, empty_leaf, first, root_leaf, rows, with, with_between,
};
pub use holes::{halve_holes, is_twig_of_holes, twig_of_holes};
pub use names::{ENTRIES, LETTERS, entries, name_key};
pub use remaking::remake;
pub use trials::{
    LEAF, ROOT, TWIG, UNPLACED, are_leaves, are_new_blocks, halve, numbers, put, put_apart,
    put_behind, put_blocks, raise, repack, run_twig, take_first, take_one, take_out,
    two_blocks_behind,
};

//! Changes of rows: neighbouring nodes of one level, with those above them, give way to others that
//! share out the same range; and a slum that is packed to the left (docs/volume.md, "Edits").
#![tactic(auto)]

mod laws;
mod slum_laws;

pub use laws::{
    pieces_make_rows, pointers_make_rows, rows_are_numbered, rows_are_patches, rows_keep_units,
    rows_take_effect, steps_are_rows, turns_take_effect, twigs_are_their_pieces,
};
pub use slum_laws::{
    filling_needs_fewest, items_come_behind, leaves_pack_to_the_left, packed_slums_are_squeezed,
    squeezing_is_a_patch, twigs_pack_to_the_left,
};

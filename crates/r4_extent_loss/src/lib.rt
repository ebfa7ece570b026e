//! A body in extents loses blocks: the turns of its twigs (docs/volume.md, "Bodies in extents").
#![tactic(auto)]

mod laws;
mod losing;

pub use laws::{
    losing_turns_take_bytes, losing_twigs_are_ready, losing_twigs_change_their_pieces,
    losing_twigs_have_their_turn, losses_of_parts, measured_losses_may_go,
    only_losing_twigs_change_their_pieces, turned_twigs_take_bytes,
};
pub use losing::{Losing, gone_of, regraft_without};
pub use r4_extent_build::regraft_each;

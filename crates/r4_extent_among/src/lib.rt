//! Values are put among the extents of a twig, where no leaf is: the turn of the twig
//! (docs/volume.md, "Bodies in extents").
#![tactic(auto)]

mod each;
mod extents;
mod laws;
mod leaves;
mod putting;

pub use each::put_among_each;
pub use laws::{
    among_turns_set_values, among_twigs_are_ready, among_twigs_have_their_turn,
    among_twigs_leave_leaves, among_twigs_need_what_is_asked, each_twig_leaves_leaves,
    each_twig_sets_values, measured_twigs_may_be_put_among, measured_twigs_may_each_be_put_among,
    other_twigs_may_follow, turned_twigs_set_values, twigs_of_parts_are_among,
};
pub use putting::put_among;

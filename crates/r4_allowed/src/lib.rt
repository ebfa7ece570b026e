//! What may still come in the place of the cells of a task, as a table that is made and checked
//! when a command is carried out (docs/volume.md, "What may still come").
#![tactic(auto)]

mod bearing;
mod checking;
mod counting;
mod laws;
mod making;
mod table;

pub use checking::is_allowed;
pub use counting::most_new;
pub use laws::{
    allowed_tables_are_budgets, made_tables_suffice, partings_are_least, told_twigs_may_grow,
};
pub use making::allowances;
pub use r4_extent_put::{
    BodyChange, Cell, SizedBody, Turning, TwigPart, TwigPiece, body_changed, change_of_growing,
    change_of_losing, change_of_putting, change_of_turning, changes_pieces, leaves_put, may_grow,
    may_lose, may_put, may_turn, pieces_of_cell, turning_among, twig_turning, twigs_coming,
    twigs_losing, twigs_putting, unit_end,
};
pub use table::Allowance;

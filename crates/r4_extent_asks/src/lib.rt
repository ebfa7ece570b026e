//! What a command asks of each cell, bodies in extents included (docs/volume.md, "Reach").
#![tactic(auto)]

mod blocks;
mod changes;
mod extent_demands;
mod intervals;
mod leaves;
mod left;
mod nodes;

pub use changes::changes_of;
pub use extent_demands::ExtentDemands;
pub use left::first_gone;
pub use r4_twig_asks::{
    BodyChange, Demands, Marks, SizedBody, Way, body_changed, commands_of_extents_may_ask,
    extents_have, mark,
};
pub use r4_units::{FetchFault, Keeping, Pool};

//! Commands on whole volumes, for tests: what is built of a command on what it reaches, its change
//! put in place on the device, and the volume listed before and after (docs/volume.md,
//! "Building").
#![tactic(auto)]

mod building;
mod carrying;
mod counts;
mod listings;
mod placing;
mod replies;
mod tables;
mod volumes;

pub use building::built;
pub use carrying::{Done, carry_out};
pub use counts::standing;
pub use listings::{differences, listing};
pub use placing::put_in_place;
pub use tables::{Row, Told, Tree, other_counts, other_replies, others, others_in_turn};
pub use volumes::{FREE, Volume};

//! What tests of commits share: fresh volumes, commits of cells, replays, and blocks of a device.
#![tactic(auto)]

mod blocks;
mod calls;
mod cells;
mod commits;
mod volumes;

pub use blocks::{filled, number, read};
pub use calls::replays;
pub use cells::{data, leaf};
pub use commits::commit;
pub use volumes::{space_of, super_of, volume};

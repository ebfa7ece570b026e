//! Trees on a device, for tests; nothing of them is made by the code that is tested.
//!
//! - Items and nodes: `Item` with `stat`, `entry`, `tail`, `pointer` and `extent`; `node` makes a
//!   block of items, `lay` and `lay_bytes` write one to a device.
//! - `Counting`, a device that notes which blocks are read.
//! - `with_room` and `full`: trees of heights 2 to 8 with a file of 16,384 bytes in full leaves.
//! - `volume`: directories and files in a tree of height 2, 3 or 4, their bytes in tails or in
//!   extents; and the same objects as data.
//! - `command`, which reads a command from its text.
#![tactic(auto)]

mod commands;
mod counting;
mod items;
mod nodes;
mod objects;
mod trees;
mod volumes;

pub use commands::command;
pub use counting::Counting;
pub use items::{Item, entry, extent, pointer, stat, tail};
pub use nodes::{BLOCKS, empty_device, lay, lay_bytes, node};
pub use objects::{D, E, F, G, H, I, LONG_NAME, M, NEXT, OBJECTS, Object, ROOT, ROOT_ENTRIES, X};
pub use trees::{full, with_room};
pub use volumes::{Bodies, volume};

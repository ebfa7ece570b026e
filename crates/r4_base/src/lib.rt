//! The numbers, blocks and images of an r4 volume, and what the log on an image means.
#![tactic(auto)]

mod block;
mod bytes;
mod fixed;
mod fresh;
mod items;
mod journal;
mod key;
mod laws;
mod limits;
mod node;
mod plugin;
mod superblock;
mod things;
mod values;
mod volume;

pub use block::Block;
pub use bytes::{blank, get16, get32, get64, move_bytes, put_bytes, put16, put32, put64};
pub use fixed::{bitmap_block, bitmap_count, is_fixed, is_lawful_count};
pub use fresh::{fresh_law, object_law, pointer_law};
pub use items::{Attr, CellFault, DirFault, ExtentFault, NameFault, StatFault, Target, Unit};
pub use journal::{Footer, Header, LogFault, TxHead};
pub use key::{Key, key_law};
pub use laws::{log_law, number_law, settled_law};
pub use limits::{
    BITMAP_BITS, BLOCK_BYTES, FIRST_BITMAP, FIRST_OBJECT, FIRST_PLACE, FOOTER_BLOCK, FRESH_LEAF,
    FRESH_TWIG, GREATEST_SIZE, HEADER_BLOCK, ITEM_HEADER, LEAF, LEAST_BLOCKS, MASTER_BLOCK,
    MOST_BLOCKS, MOST_HEADS, MOST_LEVELS, NODE_HEAD, NODE_ROOM, OBJECT_END, RECORD_PAIRS,
    ROOT_OBJECT, STATUS_BLOCK, SUPER_BLOCK, TAIL_END, TWIG, UNPLACED,
};
pub use node::NodeFault;
pub use plugin::{ENTRIES, EXTENT, POINTER, STAT, TAIL};
pub use std::alloc::AllocError as Memory;
pub use superblock::{LayoutFault, Master, Super40};
pub use things::{AtomNo, BlockNo, NodeId, Oid, ScriptNo, TaskId, TxnNo};
pub use values::{Bytes, Name, Value};
pub use volume::{content_law, volume_law};

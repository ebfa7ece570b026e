//! The numbers of the format, each of which is said here and nowhere else (docs/layout.md).

use crate::items::Target;
use crate::things::{BlockNo, Oid};

/// How many bytes a block has.
pub const BLOCK_BYTES: u64 = 4096;

/// The fewest blocks that a volume has (docs/layout.md, "Superblocks").
pub const LEAST_BLOCKS: u64 = 64;

/// The most blocks that a volume has (docs/layout.md, "Superblocks").
pub const MOST_BLOCKS: u64 = 1_048_576;

/// The master superblock (docs/layout.md, "Fixed blocks").
pub const MASTER_BLOCK: BlockNo = BlockNo(16);

/// The format superblock (docs/layout.md, "Fixed blocks").
pub const SUPER_BLOCK: BlockNo = BlockNo(17);

/// The first bitmap (docs/layout.md, "Fixed blocks").
pub const FIRST_BITMAP: BlockNo = BlockNo(18);

/// The journal header (docs/layout.md, "Fixed blocks").
pub const HEADER_BLOCK: BlockNo = BlockNo(19);

/// The journal footer (docs/layout.md, "Fixed blocks").
pub const FOOTER_BLOCK: BlockNo = BlockNo(20);

/// The status block, whose content nobody reads (docs/layout.md, "Fixed blocks").
pub const STATUS_BLOCK: BlockNo = BlockNo(21);

/// The first block that may be handed out: those below it are fixed (docs/layout.md, "Fixed blocks").
pub const FIRST_PLACE: u64 = 22;

/// The root of a fresh volume, a twig (docs/volume.md, "A fresh volume").
pub const FRESH_TWIG: BlockNo = BlockNo(22);

/// The one leaf of a fresh volume (docs/volume.md, "A fresh volume").
pub const FRESH_LEAF: BlockNo = BlockNo(23);

/// How many blocks one bitmap tells of: the bits of its block (docs/layout.md, "Bitmaps").
pub const BITMAP_BITS: u64 = 32_736;

/// How many pairs a record of the log has room for (docs/layout.md, "The log").
pub const RECORD_PAIRS: usize = 254;

/// How many unflushed transactions a log may have (docs/layout.md, "Replay").
pub const MOST_HEADS: usize = 8;

/// Where the first body of a node begins, behind its head (docs/layout.md, "Nodes").
pub const NODE_HEAD: u16 = 28;

/// How many bytes a node has for items: a block but for its head (docs/layout.md, "Nodes").
pub const NODE_ROOM: u16 = 4068;

/// How many bytes the header of an item has (docs/layout.md, "Nodes").
pub const ITEM_HEADER: u16 = 38;

/// The level of leaves; data blocks have level 0 (docs/volume.md, "The tree").
pub const LEAF: u8 = 1;

/// The level of twigs, which name leaves and data blocks (docs/volume.md, "The tree").
pub const TWIG: u8 = 2;

/// The level of the highest root (docs/volume.md, "The tree").
pub const MOST_LEVELS: u8 = 8;

/// The numbers from here on name nodes and data blocks that have no block yet (docs/volume.md, "Cells").
pub const UNPLACED: u64 = 1 << 63;

/// A tail ends at this byte of its file at most (docs/layout.md, "Items").
pub const TAIL_END: u64 = 16_384;

/// The object ids end below this number (docs/layout.md, "Superblocks").
pub const OBJECT_END: u64 = 1 << 60;

/// The least object id that is drawn: the smallest free one of a fresh volume (docs/volume.md, "A fresh volume").
pub const FIRST_OBJECT: u64 = 65_536;

/// The root directory, as an entry would name it (docs/volume.md, "Content").
pub const ROOT_OBJECT: Target = Target {
    locality: 41,
    ordering: 0,
    oid: Oid(42),
};

/// The greatest size of a file in bytes (docs/commands.md).
pub const GREATEST_SIZE: u64 = 1 << 30;

//! What the two superblocks say, and why a volume is not opened (docs/layout.md, "Superblocks").

ghost use Rattle.std.specs.Prelude.{◌≡◌};

/// The master superblock, block 16: the volume's label, of any 16 bytes. Its uuid and its diskmap are not read.
#[derive(Clone, Copy, Debug, PartialEq, Eq)]
pub struct Master {
    pub label: [u8; 16],
}

/// The format superblock, block 17. Blocks are counted from 0. `block_count` is from 64 to 1,048,576, `root_block` is
/// below it and no fixed block, `oid` is the smallest free object id, from 65536 to 2^60 - 1, `tree_height` is from 2 to
/// 8, `flags` is 1 and `node_pid` 0; `formatting_policy`, `version` and `mkfs_id` may be any number. `file_count` counts
/// all objects, and `flushes` the atoms that were written, modulo 2^64 (docs/layout.md, "Superblocks").
#[derive(Clone, Copy, Debug, PartialEq, Eq)]
pub struct Super40 {
    pub block_count: u64,
    pub free_blocks: u64,
    pub root_block: u64,
    pub oid: u64,
    pub file_count: u64,
    pub flushes: u64,
    pub mkfs_id: u32,
    pub tree_height: u16,
    pub formatting_policy: u16,
    pub flags: u64,
    pub version: u32,
    pub node_pid: u32,
}

/// Why a volume is not opened, in the order in which the faults are looked for: the superblocks', and then `Bitmap`
/// (docs/layout.md, "Superblocks" and "Bitmaps").
#[derive(Clone, Copy, Debug, PartialEq, Eq)]
pub enum LayoutFault {
    Magic,
    BlockSize,
    Profile,
    Height,
    Count,
    Bitmap,
}

impl LayoutFault {
    ghost use Rattle.r4_base.specs.Words.{layout_word_of};

    /// Its words, as they are printed (docs/program.md, "Lines and statuses").
    pub fn word(self) -> &'static str
        ensures { result.now ≡ layout_word_of self }
    {
        match self {
            LayoutFault::Magic => "magic",
            LayoutFault::BlockSize => "block size",
            LayoutFault::Profile => "profile",
            LayoutFault::Height => "height",
            LayoutFault::Count => "count",
            LayoutFault::Bitmap => "bitmap",
        }
    }
}

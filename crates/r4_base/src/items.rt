//! What the bodies of items say, and why one is refused (docs/layout.md, "Items").

ghost use Rattle.std.specs.Prelude.{◌≡◌};

use crate::node::NodeFault;
use crate::things::Oid;

/// The stat data of an object. The upper four bits of `mode` are its type: 0o04 for a directory and 0o10 for a file. A
/// directory's `nlink` is 2 plus its directories and its `size` the number of its entries; a file's `nlink` is the number
/// of entries that name it, and its `size` is in bytes. The times are in seconds. Each field may be any number of its
/// width: none but the type is looked at when stat data are read (docs/layout.md, "Items").
#[derive(Clone, Copy, Debug, PartialEq, Eq)]
pub struct Attr {
    pub mode: u16,
    pub nlink: u32,
    pub size: u64,
    pub uid: u32,
    pub gid: u32,
    pub atime: u32,
    pub mtime: u32,
    pub ctime: u32,
    pub bytes: u64,
}

impl Attr {
    ghost use Rattle.r4_base.specs.Volume.{is_directory};

    /// Whether its object is a directory, by the type in the mode; else it is a file.
    pub fn is_directory(self) -> bool
        ensures { result ≡ is_directory self }
    {
        self.mode / 4096 == 4
    }
}

/// Why a body is no stat data, in the order in which the faults are looked for: `Mask`, where the mask is not 3 or the body
/// ends before it; `Length`, where the body has not 44 bytes; `Kind`, where the mode's type is neither a directory's nor a
/// file's (docs/layout.md, "Items").
#[derive(Clone, Copy, Debug, PartialEq, Eq)]
pub enum StatFault {
    Mask,
    Length,
    Kind,
}

/// A unit of an extent: `width` blocks from block `start` on. A start of 0 is a hole, a start of at least 22 a run of
/// blocks, and a start of at least 2^63 stands for a block that is not placed yet, in memory only; its width is 1. A width
/// is at least 1 (docs/layout.md, "Items").
#[derive(Clone, Copy, Debug, PartialEq, Eq)]
pub struct Unit {
    pub start: u64,
    pub width: u64,
}

/// Why a body is no extent, in the order in which the faults are looked for: `Length`, where it is empty or its length no
/// multiple of 16; then for each unit, by its place from 0 on, `Start`, where the start is 1 to 21; `Width`, where the
/// width is 0; `Range`, where a run goes past the block count or holds a fixed block (docs/layout.md, "Items").
#[derive(Clone, Copy, Debug, PartialEq, Eq)]
pub enum ExtentFault {
    Length,
    Start(u16),
    Width(u16),
    Range(u16),
}

/// What an entry names: the object whose stat data has this locality, ordering and object id. The locality is below 2^60
/// for every object (docs/layout.md, "Items").
#[derive(Clone, Copy, Debug, PartialEq, Eq)]
pub struct Target {
    pub locality: u64,
    pub ordering: u64,
    pub oid: Oid,
}

/// Why bytes are no name, in the order in which the faults are looked for: `Empty`; `Long`, with more than 255 bytes, of
/// which it tells the number; `Byte`, at the place of the first byte that is 0 or a slash, counted from 0; `Dot`, where
/// the name is one dot or two (docs/layout.md, "Names").
#[derive(Clone, Copy, Debug, PartialEq, Eq)]
pub enum NameFault {
    Empty,
    Long(usize),
    Byte(usize),
    Dot,
}

/// Why a body is no directory item, in the order in which the faults are looked for: `Count`, where it ends before its
/// count, counts no entries, or has no room for their headers; then for each entry, by its place from 0 on, `Offset`,
/// where entry 0 does not begin behind the headers, or a body goes past the item or has fewer than 24 bytes; `Order`,
/// where entry 0 has another key than the item, or a later key is not above the one before it; `Name`, where the name
/// does not give the key, is no name, or the body is not exactly of its form (docs/layout.md, "Items").
#[derive(Clone, Copy, Debug, PartialEq, Eq)]
pub enum DirFault {
    Count,
    Offset(u16),
    Order(u16),
    Name(u16),
}

/// Why a block may not stand as a cell at its level and range, in the order in which the faults are looked for: `Node`;
/// `Level`, where the node has another level; then item by item the fault of its body, and `Range`, where the item's key
/// or one of its units lies outside the range, or a unit not below the next item's key, or where the first item of a node
/// above leaf level does not begin the range. `Tail`: a tail that ends past byte 16384. `Pointer`: a pointer to no block
/// of the volume, or to a fixed one (docs/volume.md, "Cells").
#[derive(Clone, Copy, Debug, PartialEq, Eq)]
pub enum CellFault {
    Node(NodeFault),
    Stat(StatFault),
    Dir(DirFault),
    Extent(ExtentFault),
    Tail,
    Pointer,
    Level,
    Range { item: u16 },
}

impl CellFault {
    ghost use Rattle.r4_base.specs.Words.{cell_word_of};

    /// Its words, as they are printed (docs/program.md, "Lines and statuses").
    pub fn word(self) -> &'static str
        ensures { result.now ≡ cell_word_of self }
    {
        match self {
            CellFault::Node(_) => "node",
            CellFault::Stat(_) => "stat",
            CellFault::Dir(_) => "dir",
            CellFault::Extent(_) => "extent",
            CellFault::Tail => "tail",
            CellFault::Pointer => "pointer",
            CellFault::Level => "level",
            CellFault::Range { .. } => "key range",
        }
    }
}

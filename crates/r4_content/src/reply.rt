//! Replies: what a command is answered.

ghost use Rattle.std.specs.Prelude.{◌≡◌, IfOk};

use crate::names::Names;
use r4_base::{Attr, BlockNo, Bytes, Memory, Name};

/// What a command is answered. The first four say that it was done; those from `Name` to `Notempty` that the content does
/// not allow it, and nothing changed; the others that the volume cannot do it now. Blocks are counted from 0. When each of
/// the first two kinds comes is in docs/commands.md.
#[derive(Drop)]
pub enum Reply {
    /// It was done, and there is nothing to tell. It is printed as `ok`.
    Okay,
    /// The bytes that were asked for, as far as the file has them.
    Data { bytes: Bytes },
    /// The attributes of the object.
    Attr { attr: Attr },
    /// The names in the directory, in the order of their keys.
    Names { names: Names },
    /// A component of a path is no name: it is empty, longer than 255 bytes, has a byte 0 or a slash, or is one dot or two.
    Name,
    /// What has to be a directory is none.
    Notdir,
    /// There is no entry of a name on the path, or its object has no stat data or a number of 2^60 or more.
    Absent,
    /// The entry that is to be made is there already, as the root always is.
    Exists,
    /// The key of the entry that is to be made is taken by the entry of another name, `other`.
    Clash { other: Name },
    /// No number below 2^60 - 1 is left for a new object.
    Oids,
    /// The file, or the directory that would get a directory more, has 65535 links already, which are the most.
    Links,
    /// What has to be a file is a directory.
    Isdir,
    /// The file would get more than 2^30 bytes, or bytes past there.
    Toobig,
    /// The root cannot be removed or moved, and no directory can be moved to below itself.
    Loop,
    /// The directory that is to go has entries.
    Notempty,
    /// The change needs `need` blocks more, and `free`, which are fewer, are free.
    Space { need: u64, free: u64 },
    /// The tree would have to grow, and its height, `height`, is the greatest already, 8.
    Tall { height: u8 },
    /// There was not enough memory.
    Memory,
    /// The block `block` could not be read; the device counts `faults` failures, from its start on.
    Readfault { block: BlockNo, faults: u64 },
    /// The block `block` is no node or data of the volume where it stands: it does not read as one, or has another level or
    /// range.
    Damaged { block: BlockNo },
    /// A write or sync failed when the clock stood at `clock`: the volume takes no work until it is opened again.
    Reopen { clock: u64 },
}

impl Reply {
    /// An equal reply, with the same bytes and names. It takes no memory; `Memory` comes only where a count of owners is
    /// full, at 2^63 - 1.
    pub fn share(&self) -> Result<Reply, Memory>
        ensures { IfOk result (λ r. r ≡ self.now) }
    {
        Ok(match *self {
            Reply::Okay => Reply::Okay,
            Reply::Data { ref bytes } => Reply::Data {
                bytes: bytes.share()?,
            },
            Reply::Attr { attr } => Reply::Attr { attr },
            Reply::Names { ref names } => Reply::Names {
                names: names.share()?,
            },
            Reply::Name => Reply::Name,
            Reply::Notdir => Reply::Notdir,
            Reply::Absent => Reply::Absent,
            Reply::Exists => Reply::Exists,
            Reply::Clash { ref other } => Reply::Clash {
                other: other.share()?,
            },
            Reply::Oids => Reply::Oids,
            Reply::Links => Reply::Links,
            Reply::Isdir => Reply::Isdir,
            Reply::Toobig => Reply::Toobig,
            Reply::Loop => Reply::Loop,
            Reply::Notempty => Reply::Notempty,
            Reply::Space { need, free } => Reply::Space { need, free },
            Reply::Tall { height } => Reply::Tall { height },
            Reply::Memory => Reply::Memory,
            Reply::Readfault { block, faults } => Reply::Readfault { block, faults },
            Reply::Damaged { block } => Reply::Damaged { block },
            Reply::Reopen { clock } => Reply::Reopen { clock },
        })
    }
}

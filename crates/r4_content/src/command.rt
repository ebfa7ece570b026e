//! Commands: what a script asks of a volume.

ghost use Rattle.std.specs.Prelude.{◌≡◌, IfOk};
ghost use Rattle.r4_content.specs.Fields.{HasBytePaths};
ghost use Rattle.r4_content.specs.Groups.{IsOfBytes, IsOfAttributes, IsOfEntries};
ghost use Rattle.r4_content.specs.Meaning.{makes_object};

use crate::path::Path;
use r4_base::{Bytes, Memory, Oid};
use std::alloc::Global;

/// One command of a script. Offsets, lengths and sizes are in bytes, and times in seconds. Any path may be there, and any
/// number of its field's width: what is not allowed is refused by the reply. What each command does, reads and changes is
/// in docs/commands.md.
#[derive(Drop)]
pub enum Command {
    /// A new empty file at `path`, of mode 100644. Where it is done `oid` is the number of the new object, and in a job,
    /// where none is drawn yet, 0.
    Create {
        path: Path,
        oid: Oid,
    },
    /// A new empty directory at `path`, of mode 40755, with `oid` as for `Create`.
    Mkdir {
        path: Path,
        oid: Oid,
    },
    /// The bytes of `text` are put into the file from `offset` on; a gap before them is filled with zeros. No bytes change
    /// nothing.
    Write {
        path: Path,
        offset: u64,
        text: Bytes,
    },
    /// `len` bytes of the file, from `offset` on, become `byte`, as if they were written.
    Fill {
        path: Path,
        offset: u64,
        len: u64,
        byte: u8,
    },
    /// The file is cut to `size` bytes, or grown to as many with zeros.
    Truncate {
        path: Path,
        size: u64,
    },
    /// Asks for the bytes of the file from `offset` on, at most `len`.
    Read {
        path: Path,
        offset: u64,
        len: u64,
    },
    /// Asks for the attributes of the object at `path`.
    Stat {
        path: Path,
    },
    /// Asks for the names in the directory at `path`.
    Names {
        path: Path,
    },
    /// The file at `from` gets a further name, `to`.
    Link {
        from: Path,
        to: Path,
    },
    /// The file's entry at `path` goes, and with its last entry the file.
    Unlink {
        path: Path,
    },
    /// The directory at `path` goes, which must be empty.
    Rmdir {
        path: Path,
    },
    /// The entry at `from` moves to `to`, and what stood there goes.
    Rename {
        from: Path,
        to: Path,
    },
    /// The low 12 bits of the mode become those of `mode`.
    Chmod {
        path: Path,
        mode: u16,
    },
    /// The owner and the group become these.
    Chown {
        path: Path,
        uid: u32,
        gid: u32,
    },
    /// The times of the last access, the last write and the last change become these.
    Times {
        path: Path,
        atime: u32,
        mtime: u32,
        ctime: u32,
    },
    /// A transaction begins, to which the commands up to `End` belong.
    Begin,
    /// The transaction ends.
    End,
    /// All that was done so far is to be made durable.
    Commit,
}

impl Command {
    /// Whether the command makes an object where it is done, so that it is given a number for it.
    pub fn makes_object(&self) -> bool
        ensures { result ≡ makes_object self.now }
    {
        matches!(*self, Command::Create { .. } | Command::Mkdir { .. })
    }

    /// Its paths are of bytes, as those of every command are. It changes nothing.
    pub fn lawful(&self)
        ensures { HasBytePaths self.now }
    {
        match *self {
            Command::Begin | Command::End | Command::Commit => (),
            Command::Create { ref path, .. }
            | Command::Mkdir { ref path, .. }
            | Command::Write { ref path, .. }
            | Command::Fill { ref path, .. }
            | Command::Truncate { ref path, .. }
            | Command::Read { ref path, .. }
            | Command::Stat { ref path }
            | Command::Names { ref path }
            | Command::Unlink { ref path }
            | Command::Rmdir { ref path }
            | Command::Chmod { ref path, .. }
            | Command::Chown { ref path, .. }
            | Command::Times { ref path, .. } => path.lawful(),
            Command::Link { ref from, ref to } | Command::Rename { ref from, ref to } => {
                from.lawful();
                to.lawful();
            }
        }
    }

    /// An equal command. Its paths have memory of their own, and the bytes of a text are shared.
    pub fn copy(&self, alloc: Global) -> Result<Command, Memory>
        ensures { IfOk result (λ c. c ≡ self.now) }
    {
        match *self {
            Command::Begin => Ok(Command::Begin),
            Command::End => Ok(Command::End),
            Command::Commit => Ok(Command::Commit),
            Command::Write { .. } | Command::Fill { .. } | Command::Read { .. } =>
                self.copy_of_bytes(alloc),
            Command::Stat { .. }
            | Command::Truncate { .. }
            | Command::Chmod { .. }
            | Command::Chown { .. }
            | Command::Times { .. } => self.copy_of_attributes(alloc),
            _ => self.copy_of_entries(alloc),
        }
    }

    /// A copy of a command that reads or sets bytes of a file.
    fn copy_of_bytes(&self, alloc: Global) -> Result<Command, Memory>
        requires { IsOfBytes self.now }
        ensures { IfOk result (λ c. c ≡ self.now) }
    {
        match *self {
            Command::Write {
                ref path,
                offset,
                ref text,
            } => {
                let path = path.copy(alloc)?;
                let text = text.share()?;
                Ok(Command::Write { path, offset, text })
            }
            Command::Fill {
                ref path,
                offset,
                len,
                byte,
            } => {
                let path = path.copy(alloc)?;
                Ok(Command::Fill {
                    path,
                    offset,
                    len,
                    byte,
                })
            }
            Command::Read {
                ref path,
                offset,
                len,
            } => {
                let path = path.copy(alloc)?;
                Ok(Command::Read { path, offset, len })
            }
            _ => unreachable!(),
        }
    }

    /// A copy of a command that reads or sets attributes, of which a file's size is one.
    fn copy_of_attributes(&self, alloc: Global) -> Result<Command, Memory>
        requires { IsOfAttributes self.now }
        ensures { IfOk result (λ c. c ≡ self.now) }
    {
        match *self {
            Command::Stat { ref path } => {
                let path = path.copy(alloc)?;
                Ok(Command::Stat { path })
            }
            Command::Truncate { ref path, size } => {
                let path = path.copy(alloc)?;
                Ok(Command::Truncate { path, size })
            }
            Command::Chmod { ref path, mode } => {
                let path = path.copy(alloc)?;
                Ok(Command::Chmod { path, mode })
            }
            Command::Chown { ref path, uid, gid } => {
                let path = path.copy(alloc)?;
                Ok(Command::Chown { path, uid, gid })
            }
            Command::Times {
                ref path,
                atime,
                mtime,
                ctime,
            } => {
                let path = path.copy(alloc)?;
                Ok(Command::Times {
                    path,
                    atime,
                    mtime,
                    ctime,
                })
            }
            _ => unreachable!(),
        }
    }

    /// A copy of a command that reads, makes, moves or removes entries.
    fn copy_of_entries(&self, alloc: Global) -> Result<Command, Memory>
        requires { IsOfEntries self.now }
        ensures { IfOk result (λ c. c ≡ self.now) }
    {
        match *self {
            Command::Create { ref path, oid } => {
                let path = path.copy(alloc)?;
                Ok(Command::Create { path, oid })
            }
            Command::Mkdir { ref path, oid } => {
                let path = path.copy(alloc)?;
                Ok(Command::Mkdir { path, oid })
            }
            Command::Names { ref path } => {
                let path = path.copy(alloc)?;
                Ok(Command::Names { path })
            }
            Command::Link { ref from, ref to } => {
                let from = from.copy(alloc)?;
                let to = to.copy(alloc)?;
                Ok(Command::Link { from, to })
            }
            Command::Unlink { ref path } => {
                let path = path.copy(alloc)?;
                Ok(Command::Unlink { path })
            }
            Command::Rmdir { ref path } => {
                let path = path.copy(alloc)?;
                Ok(Command::Rmdir { path })
            }
            Command::Rename { ref from, ref to } => {
                let from = from.copy(alloc)?;
                let to = to.copy(alloc)?;
                Ok(Command::Rename { from, to })
            }
            _ => unreachable!(),
        }
    }
}

//! Commands beside those of a job (docs/commands.md, "Comparing").

ghost use Rattle.std.specs.Prelude.{◌≡◌, ◌↔◌, ◌⊎◌, IsTrue};
ghost use Rattle.r4_content.specs.Groups.{IsOfAttributes, IsOfBytes};
ghost use Rattle.r4_content.specs.Meaning.{with_id};
ghost use Rattle.r4_content.specs.declared.command.Command.TheVariants.{Create, Mkdir, Write, Fill};
ghost use Rattle.r4_content.specs.declared.command.Command.TheVariants.{Truncate, Read, Stat};
ghost use Rattle.r4_content.specs.declared.command.Command.TheVariants.{Names, Link, Unlink, Rmdir};
ghost use Rattle.r4_content.specs.declared.command.Command.TheVariants.{Rename, Chmod, Chown};
ghost use Rattle.r4_content.specs.declared.command.Command.TheVariants.{Times};

use crate::command::Command;
use crate::path::Path;
use r4_base::{Bytes, Oid};

impl Command {
    /// Whether this is the command `job` of a job, where `oid` is the number of the object that it makes, if it makes one.
    pub fn is_job(&self, job: &Command, oid: Oid) -> bool
        ensures { IsTrue result ↔ (self.now ≡ with_id oid job.now) }
    {
        match *job {
            Command::Create { ref path, .. } => self.is_create(path, oid),
            Command::Mkdir { ref path, .. } => self.is_mkdir(path, oid),
            Command::Names { ref path } => self.is_names(path),
            Command::Link { ref from, ref to } => self.is_link(from, to),
            Command::Unlink { ref path } => self.is_unlink(path),
            Command::Rmdir { ref path } => self.is_rmdir(path),
            Command::Rename { ref from, ref to } => self.is_rename(from, to),
            Command::Begin => matches!(*self, Command::Begin),
            Command::End => matches!(*self, Command::End),
            Command::Commit => matches!(*self, Command::Commit),
            _ => self.is_same_of_object(job),
        }
    }

    // Whether this is the same command on an object's bytes or attributes.
    fn is_same_of_object(&self, job: &Command) -> bool
        requires { IsOfBytes job.now ⊎ IsOfAttributes job.now }
        ensures { (oid : Oid) → IsTrue result ↔ (self.now ≡ with_id oid job.now) }
    {
        match *job {
            Command::Write {
                ref path,
                offset,
                ref text,
            } => self.is_write(path, offset, text),
            Command::Fill {
                ref path,
                offset,
                len,
                byte,
            } => self.is_fill(path, offset, len, byte),
            Command::Read {
                ref path,
                offset,
                len,
            } => self.is_read(path, offset, len),
            Command::Truncate { ref path, size } => self.is_truncate(path, size),
            Command::Stat { ref path } => self.is_stat(path),
            Command::Chmod { ref path, mode } => self.is_chmod(path, mode),
            Command::Chown { ref path, uid, gid } => self.is_chown(path, uid, gid),
            Command::Times {
                ref path,
                atime,
                mtime,
                ctime,
            } => self.is_times(path, atime, mtime, ctime),
            _ => unreachable!(),
        }
    }

    fn is_create(&self, path: &Path, oid: Oid) -> bool
        ensures { IsTrue result ↔ (self.now ≡ Create path.now oid) }
    {
        match *self {
            Command::Create {
                path: ref my_path,
                oid: my_oid,
            } => my_oid == oid && my_path.is_same(path),
            _ => false,
        }
    }

    fn is_mkdir(&self, path: &Path, oid: Oid) -> bool
        ensures { IsTrue result ↔ (self.now ≡ Mkdir path.now oid) }
    {
        match *self {
            Command::Mkdir {
                path: ref my_path,
                oid: my_oid,
            } => my_oid == oid && my_path.is_same(path),
            _ => false,
        }
    }

    fn is_write(&self, path: &Path, offset: u64, text: &Bytes) -> bool
        ensures { IsTrue result ↔ (self.now ≡ Write path.now offset text.now) }
    {
        match *self {
            Command::Write {
                path: ref my_path,
                offset: my_offset,
                text: ref my_text,
            } => my_offset == offset
                && my_text.as_slice() == text.as_slice()
                && my_path.is_same(path),
            _ => false,
        }
    }

    fn is_fill(&self, path: &Path, offset: u64, len: u64, byte: u8) -> bool
        ensures { IsTrue result ↔ (self.now ≡ Fill path.now offset len byte) }
    {
        match *self {
            Command::Fill {
                path: ref my_path,
                offset: my_offset,
                len: my_len,
                byte: my_byte,
            } => my_offset == offset && my_len == len && my_byte == byte && my_path.is_same(path),
            _ => false,
        }
    }

    fn is_truncate(&self, path: &Path, size: u64) -> bool
        ensures { IsTrue result ↔ (self.now ≡ Truncate path.now size) }
    {
        match *self {
            Command::Truncate {
                path: ref my_path,
                size: my_size,
            } => my_size == size && my_path.is_same(path),
            _ => false,
        }
    }

    fn is_read(&self, path: &Path, offset: u64, len: u64) -> bool
        ensures { IsTrue result ↔ (self.now ≡ Read path.now offset len) }
    {
        match *self {
            Command::Read {
                path: ref my_path,
                offset: my_offset,
                len: my_len,
            } => my_offset == offset && my_len == len && my_path.is_same(path),
            _ => false,
        }
    }

    fn is_stat(&self, path: &Path) -> bool
        ensures { IsTrue result ↔ (self.now ≡ Stat path.now) }
    {
        match *self {
            Command::Stat { path: ref my_path } => my_path.is_same(path),
            _ => false,
        }
    }

    fn is_names(&self, path: &Path) -> bool
        ensures { IsTrue result ↔ (self.now ≡ Names path.now) }
    {
        match *self {
            Command::Names { path: ref my_path } => my_path.is_same(path),
            _ => false,
        }
    }

    fn is_link(&self, from: &Path, to: &Path) -> bool
        ensures { IsTrue result ↔ (self.now ≡ Link from.now to.now) }
    {
        match *self {
            Command::Link {
                from: ref my_from,
                to: ref my_to,
            } => my_from.is_same(from) && my_to.is_same(to),
            _ => false,
        }
    }

    fn is_unlink(&self, path: &Path) -> bool
        ensures { IsTrue result ↔ (self.now ≡ Unlink path.now) }
    {
        match *self {
            Command::Unlink { path: ref my_path } => my_path.is_same(path),
            _ => false,
        }
    }

    fn is_rmdir(&self, path: &Path) -> bool
        ensures { IsTrue result ↔ (self.now ≡ Rmdir path.now) }
    {
        match *self {
            Command::Rmdir { path: ref my_path } => my_path.is_same(path),
            _ => false,
        }
    }

    fn is_rename(&self, from: &Path, to: &Path) -> bool
        ensures { IsTrue result ↔ (self.now ≡ Rename from.now to.now) }
    {
        match *self {
            Command::Rename {
                from: ref my_from,
                to: ref my_to,
            } => my_from.is_same(from) && my_to.is_same(to),
            _ => false,
        }
    }

    fn is_chmod(&self, path: &Path, mode: u16) -> bool
        ensures { IsTrue result ↔ (self.now ≡ Chmod path.now mode) }
    {
        match *self {
            Command::Chmod {
                path: ref my_path,
                mode: my_mode,
            } => my_mode == mode && my_path.is_same(path),
            _ => false,
        }
    }

    fn is_chown(&self, path: &Path, uid: u32, gid: u32) -> bool
        ensures { IsTrue result ↔ (self.now ≡ Chown path.now uid gid) }
    {
        match *self {
            Command::Chown {
                path: ref my_path,
                uid: my_uid,
                gid: my_gid,
            } => my_uid == uid && my_gid == gid && my_path.is_same(path),
            _ => false,
        }
    }

    fn is_times(&self, path: &Path, atime: u32, mtime: u32, ctime: u32) -> bool
        ensures { IsTrue result ↔ (self.now ≡ Times path.now atime mtime ctime) }
    {
        match *self {
            Command::Times {
                path: ref my_path,
                atime: my_atime,
                mtime: my_mtime,
                ctime: my_ctime,
            } => my_atime == atime
                && my_mtime == mtime
                && my_ctime == ctime
                && my_path.is_same(path),
            _ => false,
        }
    }
}

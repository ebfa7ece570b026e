//! What a command changes (docs/commands.md).

ghost use Rattle.std.specs.Prelude.{◌≡◌, IfOk};
ghost use Rattle.r4_content.specs.Course.{ending};
ghost use Rattle.r4_content.specs.Groups.{IsOfAttributes, IsOfBytes};
ghost use Rattle.r4_content.specs.Held.{ending_of, pairs_of};
ghost use Rattle.r4_content.specs.Meaning.{course, greatest_size};
ghost use Rattle.r4_content.specs.Seen.{Rises, of_seen};
ghost use Rattle.r4_file.specs.Flat.{IsFlat};

use crate::attributes::{plan_chmod, plan_chown, plan_stat, plan_times};
use crate::bodies::{plan_fill, plan_truncate, plan_write};
use crate::reading::plan_read;
use r4_base::Memory;
use r4_content::{Command, Edits, Reply, Seen};
use r4_dir::answer;
use std::alloc::Global;

/// What a command changes, and its reply, on what was seen of a content, whatever command it is. A file has at most
/// `GREATEST_SIZE` bytes. The bytes of a `write` are shared and those of a `fill` stand in one interval, so that neither
/// takes memory for each byte. `Memory` where there was not enough.
pub fn plan(alloc: Global, command: &Command, seen: &Seen) -> Result<Edits, Memory>
    requires { Rises (pairs_of seen.now) }
    ensures ending { IfOk result (λ e.
        ending_of e ≡ ending (course greatest_size command.now) (of_seen (pairs_of seen.now))) }
    ensures flat { IfOk result (λ e. IsFlat command.now e) }
{
    match *command {
        Command::Write { .. } | Command::Fill { .. } | Command::Read { .. } => plan_bytes(
            alloc, command, seen,
        ),
        Command::Stat { .. }
        | Command::Truncate { .. }
        | Command::Chmod { .. }
        | Command::Chown { .. }
        | Command::Times { .. } => plan_attributes(alloc, command, seen),
        Command::Begin | Command::End | Command::Commit => Ok(answer(alloc, Reply::Okay)),
        _ => r4_dir::plan(alloc, command, seen),
    }
}

// The same of a command that reads or sets bytes of a file.
fn plan_bytes(alloc: Global, command: &Command, seen: &Seen) -> Result<Edits, Memory>
    requires rises { Rises (pairs_of seen.now) }
    requires command { IsOfBytes command.now }
    ensures ending { IfOk result (λ e.
        ending_of e ≡ ending (course greatest_size command.now) (of_seen (pairs_of seen.now))) }
    ensures flat { IfOk result (λ e. IsFlat command.now e) }
{
    match *command {
        Command::Write {
            ref path,
            offset,
            ref text,
        } => plan_write(alloc, path.as_slice(), offset, text, seen),
        Command::Fill {
            ref path,
            offset,
            len,
            byte,
        } => plan_fill(alloc, path.as_slice(), offset, len, byte, seen),
        Command::Read {
            ref path,
            offset,
            len,
        } => plan_read(alloc, path.as_slice(), offset, len, seen),
        _ => unreachable!(),
    }
}

// The same of a command that reads or sets attributes, of which a file's size is one.
fn plan_attributes(alloc: Global, command: &Command, seen: &Seen) -> Result<Edits, Memory>
    requires rises { Rises (pairs_of seen.now) }
    requires command { IsOfAttributes command.now }
    ensures { IfOk result (λ e.
        ending_of e ≡ ending (course greatest_size command.now) (of_seen (pairs_of seen.now))) }
{
    match *command {
        Command::Stat { ref path } => plan_stat(alloc, path.as_slice(), seen),
        Command::Truncate { ref path, size } => plan_truncate(alloc, path.as_slice(), size, seen),
        Command::Chmod { ref path, mode } => plan_chmod(alloc, path.as_slice(), mode, seen),
        Command::Chown { ref path, uid, gid } => plan_chown(alloc, path.as_slice(), uid, gid, seen),
        Command::Times {
            ref path,
            atime,
            mtime,
            ctime,
        } => plan_times(alloc, path.as_slice(), atime, mtime, ctime, seen),
        _ => unreachable!(),
    }
}

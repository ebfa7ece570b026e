//! Commands, each by its fields (docs/scripts.md, "Commands").

ghost use Rattle.std.specs.Prelude.{◌≡◌, ◌≤◌, length};
ghost use Rattle.r4_script.specs.Field.{Gives};
ghost use Rattle.r4_script.specs.Command.{IsOther, bare, path_alone, paths_alone, write_at, fill_at, truncate_at, read_at, chmod_at, chown_at, times_at, command_at};

use crate::fault::{Stop, What};
use crate::field::{ends, fault_at, text};
use crate::number::{mode, number, short_number};
use crate::path::path;
use crate::word::Verb;
use r4_base::Oid;
use r4_content::{Command, Path};
use std::alloc::Global;

/// The longest `fill`, in bytes.
const FILL: u64 = 1048576;
/// The longest `read`, in bytes.
const READ: u64 = 65536;

/// The command of a word, whose fields begin at `place`. No object is drawn for it yet.
#[tactic(auto, unfolding(crate::specs::Command::command_at))]
pub fn command(alloc: Global, verb: Verb, line: &[u8], place: usize) -> Result<Command, Stop>
    requires { length line.now ≤ 16777216 }
    ensures { Gives (λ c. c) result (command_at verb line.now place) }
{
    match verb {
        Verb::Create => {
            let path = one_path(alloc, line, place)?;
            Ok(Command::Create { path, oid: Oid(0) })
        }
        Verb::Mkdir => {
            let path = one_path(alloc, line, place)?;
            Ok(Command::Mkdir { path, oid: Oid(0) })
        }
        Verb::Unlink => {
            let path = one_path(alloc, line, place)?;
            Ok(Command::Unlink { path })
        }
        Verb::Rmdir => {
            let path = one_path(alloc, line, place)?;
            Ok(Command::Rmdir { path })
        }
        Verb::Link => {
            let (from, to) = two_paths(alloc, line, place)?;
            Ok(Command::Link { from, to })
        }
        Verb::Rename => {
            let (from, to) = two_paths(alloc, line, place)?;
            Ok(Command::Rename { from, to })
        }
        _ => other_command(alloc, verb, line, place),
    }
}

// A command that makes, moves and removes no entries.
#[tactic(auto, unfolding(crate::specs::Command::command_at))]
fn other_command(alloc: Global, verb: Verb, line: &[u8], place: usize) -> Result<Command, Stop>
    requires kind { IsOther verb }
    requires within { length line.now ≤ 16777216 }
    ensures { Gives (λ c. c) result (command_at verb line.now place) }
{
    match verb {
        Verb::Script => Err(fault_at(0, What::Command)),
        Verb::Begin => alone(Command::Begin, line, place),
        Verb::End => alone(Command::End, line, place),
        Verb::Commit => alone(Command::Commit, line, place),
        Verb::Stat => {
            let path = one_path(alloc, line, place)?;
            Ok(Command::Stat { path })
        }
        Verb::Names => {
            let path = one_path(alloc, line, place)?;
            Ok(Command::Names { path })
        }
        Verb::Write => write(alloc, line, place),
        Verb::Fill => fill(alloc, line, place),
        Verb::Truncate => truncate(alloc, line, place),
        Verb::Read => read(alloc, line, place),
        Verb::Chmod => chmod(alloc, line, place),
        Verb::Chown => chown(alloc, line, place),
        Verb::Times => times(alloc, line, place),
        _ => unreachable!(),
    }
}

// A command without fields.
fn alone(command: Command, line: &[u8], place: usize) -> Result<Command, Stop>
    requires { length line.now ≤ 16777216 }
    ensures { Gives (λ c. c) result (bare command line.now place) }
{
    ends(line, place)?;
    Ok(command)
}

// One path.
fn one_path(alloc: Global, line: &[u8], place: usize) -> Result<Path, Stop>
    requires { length line.now ≤ 16777216 }
    ensures { Gives (λ p. p) result (path_alone line.now place) }
{
    let (path, place) = path(alloc, line, place)?;
    ends(line, place)?;
    Ok(path)
}

// Two paths.
fn two_paths(alloc: Global, line: &[u8], place: usize) -> Result<(Path, Path), Stop>
    requires { length line.now ≤ 16777216 }
    ensures { Gives (λ p. p) result (paths_alone line.now place) }
{
    let (from, place) = path(alloc, line, place)?;
    let (to, place) = path(alloc, line, place)?;
    ends(line, place)?;
    Ok((from, to))
}

fn write(alloc: Global, line: &[u8], place: usize) -> Result<Command, Stop>
    requires { length line.now ≤ 16777216 }
    ensures { Gives (λ c. c) result (write_at line.now place) }
{
    let (path, place) = path(alloc, line, place)?;
    let (offset, place) = number(line, place, u64::MAX)?;
    let text = text(alloc, line, place)?;
    Ok(Command::Write { path, offset, text })
}

fn fill(alloc: Global, line: &[u8], place: usize) -> Result<Command, Stop>
    requires { length line.now ≤ 16777216 }
    ensures { Gives (λ c. c) result (fill_at line.now place) }
{
    let (path, place) = path(alloc, line, place)?;
    let (offset, place) = number(line, place, u64::MAX)?;
    let (len, place) = number(line, place, FILL)?;
    let (byte, place) = number(line, place, 255)?;
    ends(line, place)?;
    Ok(Command::Fill {
        path,
        offset,
        len,
        byte: byte as u8,
    })
}

fn truncate(alloc: Global, line: &[u8], place: usize) -> Result<Command, Stop>
    requires { length line.now ≤ 16777216 }
    ensures { Gives (λ c. c) result (truncate_at line.now place) }
{
    let (path, place) = path(alloc, line, place)?;
    let (size, place) = number(line, place, u64::MAX)?;
    ends(line, place)?;
    Ok(Command::Truncate { path, size })
}

fn read(alloc: Global, line: &[u8], place: usize) -> Result<Command, Stop>
    requires { length line.now ≤ 16777216 }
    ensures { Gives (λ c. c) result (read_at line.now place) }
{
    let (path, place) = path(alloc, line, place)?;
    let (offset, place) = number(line, place, u64::MAX)?;
    let (len, place) = number(line, place, READ)?;
    ends(line, place)?;
    Ok(Command::Read { path, offset, len })
}

fn chmod(alloc: Global, line: &[u8], place: usize) -> Result<Command, Stop>
    requires { length line.now ≤ 16777216 }
    ensures { Gives (λ c. c) result (chmod_at line.now place) }
{
    let (path, place) = path(alloc, line, place)?;
    let (mode, place) = mode(line, place)?;
    ends(line, place)?;
    Ok(Command::Chmod { path, mode })
}

fn chown(alloc: Global, line: &[u8], place: usize) -> Result<Command, Stop>
    requires { length line.now ≤ 16777216 }
    ensures { Gives (λ c. c) result (chown_at line.now place) }
{
    let (path, place) = path(alloc, line, place)?;
    let (uid, place) = short_number(line, place)?;
    let (gid, place) = short_number(line, place)?;
    ends(line, place)?;
    Ok(Command::Chown { path, uid, gid })
}

fn times(alloc: Global, line: &[u8], place: usize) -> Result<Command, Stop>
    requires { length line.now ≤ 16777216 }
    ensures { Gives (λ c. c) result (times_at line.now place) }
{
    let (path, place) = path(alloc, line, place)?;
    let (atime, place) = short_number(line, place)?;
    let (mtime, place) = short_number(line, place)?;
    let (ctime, place) = short_number(line, place)?;
    ends(line, place)?;
    Ok(Command::Times {
        path,
        atime,
        mtime,
        ctime,
    })
}

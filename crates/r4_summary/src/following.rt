//! What the commands of a trace make of the empty volume, without the bytes of files.

ghost use Rattle.std.specs.Prelude.{◌≡◌, ◌∷◌, IfOk, IsFalse, IsTrue, List, OnOk};
ghost use Rattle.r4_base.specs.Key.{rank};
ghost use Rattle.r4_base.specs.Value.{Content};
ghost use Rattle.r4_base.specs.Volume.{empty_volume, root_attr, root_object, stat_rank};
ghost use Rattle.r4_content.specs.Meaning.{after, greatest_size};
ghost use Rattle.r4_content.specs.Reading.{OnlyReads};
ghost use Rattle.r4_trace.specs.declared.entry.Entry.{Entry};
ghost use Rattle.r4_summary.specs.Kept.{AreKept, Keeps};
ghost use Rattle.r4_summary.specs.Totals.{made_by};

use crate::kept::edit;
use r4_base::{Attr, Key, Memory, ROOT_OBJECT, Value};
use r4_content::{Command, Seen, SeenPart};
use r4_file::plan;
use r4_trace::{Entry, Trace};
use std::alloc::Global;

// Whether the command changes nothing, whatever the content.
fn only_reads(command: &Command) -> bool
    ensures reads { IsTrue result → OnlyReads command.now }
    ensures changes { IsFalse result → OnlyReads command.now → ⊥ }
{
    matches!(
        *command,
        Command::Read { .. }
            | Command::Stat { .. }
            | Command::Names { .. }
            | Command::Begin
            | Command::End
            | Command::Commit
    )
}

// What is kept after a command.
fn follow(alloc: Global, seen: &mut Seen, command: &Command) -> Result<(), Memory>
    requires { AreKept seen.old.parts.items }
    ensures { OnOk result ((m : Content) → Keeps seen.old.parts.items m
        → Keeps seen.new.parts.items (after greatest_size command.now m)) }
{
    if only_reads(command) {
        return Ok(());
    }
    let edits = plan(alloc, command, seen)?;
    edit(&mut seen.parts, edits)?;
    Ok(())
}

// What is kept after an entry.
fn note(alloc: Global, seen: &mut Seen, entry: &Entry) -> Result<(), Memory>
    requires { AreKept seen.old.parts.items }
    ensures { OnOk result ((older : List Entry) → Keeps seen.old.parts.items (made_by older)
        → Keeps seen.new.parts.items (made_by (entry.now ∷ older))) }
{
    match *entry {
        Entry::Done { ref command, .. } => follow(alloc, seen, command),
        _ => Ok(()),
    }
}

// The key of the root directory's stat data.
fn root_key() -> Key
    ensures { rank result ≡ stat_rank root_object }
{
    Key::stat(ROOT_OBJECT.locality, ROOT_OBJECT.ordering, ROOT_OBJECT.oid)
}

// The attributes of the root directory of an empty volume.
fn root_attr() -> Attr
    ensures { result ≡ root_attr }
{
    Attr {
        mode: 0o40755,
        nlink: 2,
        size: 0,
        uid: 0,
        gid: 0,
        atime: 0,
        mtime: 0,
        ctime: 0,
        bytes: 0,
    }
}

// The empty volume: the root directory alone.
fn root_alone(alloc: Global) -> Result<Seen, Memory>
    ensures { IfOk result (λ s. Keeps s.parts.items empty_volume) }
{
    let key = root_key();
    let mut parts = Vec::new(alloc);
    parts.push(SeenPart::One {
        key,
        value: Value::Attr(root_attr()),
    })?;
    Ok(Seen { parts })
}

/// What the Done entries of a trace make of the empty volume, without the bytes of files.
pub(crate) fn all_done(alloc: Global, trace: &Trace) -> Result<Seen, Memory>
    ensures { IfOk result (λ s. Keeps s.parts.items (made_by trace.now.entries)) }
{
    let mut seen = root_alone(alloc)?;
    for i in 0..trace.len() {
        note(alloc, &mut seen, trace.entry(i))?;
    }
    Ok(seen)
}

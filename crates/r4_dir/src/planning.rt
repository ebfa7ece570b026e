//! What a command on entries changes (docs/commands.md).

ghost use Rattle.std.specs.Prelude.{◌≡◌, IfOk};
ghost use Rattle.r4_content.specs.Course.{ending};
ghost use Rattle.r4_content.specs.Groups.{IsOfEntries};
ghost use Rattle.r4_content.specs.Held.{ending_of, pairs_of};
ghost use Rattle.r4_content.specs.Meaning.{course, greatest_size};
ghost use Rattle.r4_content.specs.Seen.{Rises, of_seen};

use crate::making::{plan_create, plan_link, plan_mkdir};
use crate::moving::plan_rename;
use crate::naming::plan_names;
use crate::removing::{plan_rmdir, plan_unlink};
use r4_base::Memory;
use r4_content::{Command, Edits, Seen};
use std::alloc::Global;

/// What a command that reads, makes, moves or removes entries changes, and its reply, on what was seen of a content. `Memory`
/// where there was not enough.
pub fn plan(alloc: Global, command: &Command, seen: &Seen) -> Result<Edits, Memory>
    requires rises { Rises (pairs_of seen.now) }
    requires command { IsOfEntries command.now }
    ensures { IfOk result (λ e. ending_of e
        ≡ ending (course greatest_size command.now) (of_seen (pairs_of seen.now))) }
{
    match *command {
        Command::Create { ref path, oid } => plan_create(alloc, path.as_slice(), oid, seen),
        Command::Mkdir { ref path, oid } => plan_mkdir(alloc, path.as_slice(), oid, seen),
        Command::Names { ref path } => plan_names(alloc, path.as_slice(), seen),
        Command::Link { ref from, ref to } => plan_link(
            alloc,
            from.as_slice(),
            to.as_slice(),
            seen,
        ),
        Command::Unlink { ref path } => plan_unlink(alloc, path.as_slice(), seen),
        Command::Rmdir { ref path } => plan_rmdir(alloc, path.as_slice(), seen),
        Command::Rename { ref from, ref to } => plan_rename(
            alloc,
            from.as_slice(),
            to.as_slice(),
            seen,
        ),
        _ => unreachable!(),
    }
}

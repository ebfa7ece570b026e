//! What each command asks for (docs/commands.md, "Asking").

ghost use Rattle.std.specs.Prelude.{◌≡◌, ◌++◌, IfErr, OnErr, OnOk, reverse};
ghost use Rattle.r4_content.specs.Course.{asked};
ghost use Rattle.r4_content.specs.Meaning.{course, greatest_size};
ghost use Rattle.r4_content.specs.Seen.{of_seen};
ghost use Rattle.r4_gather.specs.Asking.{EndsIn, HasAsked, IsCause, IsLater, StaysOver, StopsIn};

use crate::entries::{see_for_link, see_for_names, see_for_new, see_for_rmdir, see_for_unlink};
use crate::files::{see_for_object, see_for_read};
use crate::moves::see_for_rename;
use crate::sight::Sight;
use r4_content::Command;
use r4_search::FetchFault;
use std::alloc::Global;

// What a command asks for, whatever is asked for besides.
#[tactic(auto, using(crate::proofs::Staying::stays_both, crate::proofs::Staying::stays_same))]
fn see_course<S: Sight>(alloc: Global, sight: &mut S, command: &Command) -> Result<(), FetchFault>
    ensures later { IsLater (S.state sight.old) (S.state sight.new) }
    ensures stays { StaysOver (S.device sight.old) (S.device sight.new)
        (S.over sight.old) (S.over sight.new) }
    ensures kept { OnOk result ((S.state sight.new).fault ≡ (S.state sight.old).fault) }
    ensures cause { IfErr result (λ e. IsCause e (S.state sight.new)) }
    ensures asked { OnOk result
        (HasAsked (course greatest_size command.now) (S.state sight.old) (S.state sight.new)) }
    ensures stops { OnErr result
        (StopsIn (course greatest_size command.now) (S.state sight.old) (S.state sight.new)) }
{
    match *command {
        Command::Create { ref path, .. } => see_for_new(alloc, sight, path.as_slice()),
        Command::Mkdir { ref path, .. } => see_for_new(alloc, sight, path.as_slice()),
        Command::Write { ref path, .. } => see_for_object(alloc, sight, path.as_slice()),
        Command::Fill { ref path, .. } => see_for_object(alloc, sight, path.as_slice()),
        Command::Truncate { ref path, .. } => see_for_object(alloc, sight, path.as_slice()),
        Command::Read {
            ref path,
            ref offset,
            ref len,
        } => see_for_read(alloc, sight, path.as_slice(), *offset, *len),
        Command::Stat { ref path } => see_for_object(alloc, sight, path.as_slice()),
        Command::Names { ref path } => see_for_names(alloc, sight, path.as_slice()),
        Command::Link { ref from, ref to } => see_for_link(
            alloc,
            sight,
            from.as_slice(),
            to.as_slice(),
        ),
        Command::Unlink { ref path } => see_for_unlink(alloc, sight, path.as_slice()),
        Command::Rmdir { ref path } => see_for_rmdir(alloc, sight, path.as_slice()),
        Command::Rename { ref from, ref to } => see_for_rename(
            alloc,
            sight,
            from.as_slice(),
            to.as_slice(),
        ),
        Command::Chmod { ref path, .. } => see_for_object(alloc, sight, path.as_slice()),
        Command::Chown { ref path, .. } => see_for_object(alloc, sight, path.as_slice()),
        Command::Times { ref path, .. } => see_for_object(alloc, sight, path.as_slice()),
        Command::Begin | Command::End | Command::Commit => Ok(()),
    }
}

/// Sees all that a command asks for, and nothing else: one interval of keys after another, in the command's order
/// (docs/commands.md, "Asking"). Where a fault ends that, what was asked for until then is the beginning of what the
/// command asks for. `Read` and `Damaged` are those of the sight; `Memory` also where none was found for the way.
#[tactic(auto, using(crate::proofs::Staying::stays_both, crate::proofs::Staying::stays_same))]
pub fn see_for<S: Sight>(alloc: Global, sight: &mut S, command: &Command) -> Result<(), FetchFault>
    ensures later { IsLater (S.state sight.old) (S.state sight.new) }
    ensures stays { StaysOver (S.device sight.old) (S.device sight.new)
        (S.over sight.old) (S.over sight.new) }
    ensures kept { OnOk result ((S.state sight.new).fault ≡ (S.state sight.old).fault) }
    ensures cause { IfErr result (λ e. IsCause e (S.state sight.new)) }
    ensures asked { OnOk result ((S.state sight.new).asked
        ≡ reverse (asked (course greatest_size command.now) (of_seen (S.state sight.new).seen))
        ++ (S.state sight.old).asked) }
    ensures stops { OnErr result (EndsIn (S.state sight.new).asked
        (reverse (asked (course greatest_size command.now) (of_seen (S.state sight.new).seen))
        ++ (S.state sight.old).asked)) }
{
    see_course(alloc, sight, command)
}

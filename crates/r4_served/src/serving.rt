//! The next command of a script is served.

ghost use Rattle.std.specs.Prelude.{◌≡◌, ◌<◌, IfOk, None, OnErr, length};
ghost use Rattle.r4_content.specs.declared.command.Command.{Command as Asking};
ghost use Rattle.r4_take.specs.r4_ready.Rooms.{HasMoreRoom};
ghost use Rattle.r4_served.specs.Serving.{IsAnswered, IsLeft, IsNoTask, IsServed};
ghost use Rattle.r4_take.specs.Sending.{IsServable};

use crate::naming::{named, next_name};
use crate::refusing::refuse;
use r4_base::{Memory, ScriptNo};
use r4_content::Reply;
use r4_outside::{Device, Run};
use r4_take::{Asked, Core, Task, Why, send};
use std::alloc::Global;

/// What becomes of the next command of a script, work.
#[derive(Drop)]
pub enum Served {
    /// It is refused, and the trace tells the reply.
    Refused,
    /// It has to wait, and nothing is done.
    Waits { why: Why },
    /// It is out as this task.
    Out { task: Task },
}

/// The next command of a script, work that is not out, is served: it gets its numbers, and under its
/// id the core is asked what becomes of it. It is refused, or has to wait, or goes out as a task.
/// The only error is want of memory, or of numbers for new cells; then the device may have been read,
/// there may be more room, and all else is as it was (docs/core.md, "Serving").
pub fn serve<D: Device, R: Run>(
    core: &mut Core<D, R>,
    alloc: Global,
    script: ScriptNo,
) -> Result<Served, Memory>
    requires few { length core.old.atoms.txns < 4294967295 }
    requires sound { core.old.broken ≡ None }
    requires servable { (x : Asking) × IsServable core.old script.0 x }
    ensures ok { IfOk result
        (IsServed (D.state core.old.dev) (D.state core.new.dev) core.old core.new script) }
    ensures err { OnErr result
        (IsLeft (D.state core.old.dev) (D.state core.new.dev) core.old core.new) }
{
    let (draws, command) = named(core, alloc, script)?;
    core.lawful();
    let _ = next_name(core);
    match core.asked(alloc, &command)? {
        Asked::Ready { ready } => {
            let task = send(core, alloc, script, command, draws, ready)?;
            Ok(Served::Out { task })
        }
        other => answer(core, alloc, script, other),
    }
}

// What a script is told whose command is not ready: it is refused, has to wait, or touches extents.
fn answer<D: Device, R: Run>(
    core: &mut Core<D, R>,
    alloc: Global,
    script: ScriptNo,
    told: Asked,
) -> Result<Served, Memory>
    requires sound { core.old.broken ≡ None }
    requires servable { (x : Asking) × IsServable core.old script.0 x }
    requires rests { IsNoTask told }
    ensures ok { IfOk result (IsAnswered core.old core.new script told) }
    ensures err { OnErr result (HasMoreRoom core.old core.new) }
{
    match told {
        Asked::Refused { reply } => refuse(core, alloc, script, reply),
        Asked::Tall { height } => refuse(core, alloc, script, Reply::Tall { height }),
        Asked::Sealed { atom } => Ok(Served::Waits {
            why: Why::Sealed { atom },
        }),
        Asked::Busy { node, holder } => Ok(Served::Waits {
            why: Why::Held { node, holder },
        }),
        Asked::Ready { .. } => unreachable!(),
    }
}

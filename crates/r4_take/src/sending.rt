//! A command that is ready goes out as a task.

ghost use Rattle.std.specs.Prelude.{◌≡◌, ◌+◌, ◌≤◌, None, true, ◌<◌, IfOk, OnErr, OnOk, length};
ghost use Rattle.r4_locks.specs.Locks.{CanLetIn};
ghost use Rattle.r4_seal.specs.r4_core.Rooms.{HasRoomFor};
ghost use Rattle.r4_seal.specs.r4_kept.History.{owed, owed_for_commit};
ghost use Rattle.r4_seal.specs.r4_kept.Steps.{StandsAlone};
ghost use Rattle.r4_take.specs.Sending.{HasOwn, HasRoomier, IsSent, MaySend};
ghost use Rattle.r4_turns.specs.Turns.{IsScript};

use crate::drawing::Draws;
use crate::gathering::{Gathered, Own, gather, own_of};
use r4_base::{Memory, ScriptNo};
use r4_content::Command;
use r4_locks::NewTask;
use r4_outside::{Device, Run};
use r4_seal::{Core, GoingOut, Ready, Task, Wanted};
use std::alloc::Global;

/// A command that is ready goes out as a task: all that it needs is gathered and made room for;
/// then a single command's transaction begins, its atom fuses with each other open atom that owns a
/// node of its reach, and it takes its holds. The answer is the task, for whoever works at it; its
/// cells and what was seen are shared with what the core keeps. The only error is want of memory, or of numbers for
/// new cells, of which 64 are asked for each cell that it writes; then there may be more room, and all
/// else is as it was (docs/core.md, "Going out").
pub fn send<D: Device, R: Run>(
    core: &mut Core<D, R>,
    alloc: Global,
    script: ScriptNo,
    command: Command,
    draws: Draws,
    ready: Ready,
) -> Result<Task, Memory>
    requires few { length core.old.atoms.txns < 4294967295 }
    requires may { MaySend (D.state core.old.dev) core.old script.0 command draws ready }
    ensures ok { IfOk result (IsSent core.old core.new script.0 command draws ready) }
    ensures err { OnErr result (HasRoomier core.old core.new) }
{
    core.lawful();
    core.atoms().lawful();
    let own = own_of(core.atoms(), core.turns().open(script));
    let tree = core.tree();
    let index = core.turns().answered(script);
    let Gathered {
        given,
        lent,
        need,
        met,
        others,
        wanted,
        names,
    } = gather(alloc, core.atoms(), tree, own, draws, ready)?;
    let scope = given.scope;
    let new = make_all_room(core, alloc, wanted, names)?;
    core.lawful();
    begin_if(core, alloc, script, own);
    core.atoms().lawful();
    core.fuse_all(own.atom, others.as_slice());
    let id = core.hand_out(
        script,
        GoingOut {
            new,
            given,
            need,
            met,
            next: draws.next,
        },
    );
    core.lawful();
    command.lawful();
    Ok(Task {
        id,
        script,
        index,
        txn: own.txn,
        command,
        reads: lent.reads,
        writes: lent.writes,
        seen: lent.seen,
        scope,
        fresh: draws.own.fresh,
    })
}

// A single command's transaction begins, where it has none yet. There is room for it.
fn begin_if<D: Device, R: Run>(core: &mut Core<D, R>, alloc: Global, script: ScriptNo, own: Own)
    requires few { length core.old.atoms.txns < 4294967295 }
    requires sound { core.old.broken ≡ None }
    requires script { IsScript core.old.turns script.0 }
    requires alone { own.begins ≡ true → StandsAlone core.old.turns script.0 }
    requires number { own.begins ≡ true → own.txn.0 ≡ length core.old.atoms.txns + 1 }
    requires entry { owed core.old.turns + owed_for_commit core.old.commit + 1
        ≤ core.old.trace.spare }
    requires room { 1 ≤ core.old.atoms.txn_spare }
    ensures { HasOwn core.old core.new script.0 own own.begins }
{
    if own.begins {
        let Ok(_) = core.begin_single(alloc, script) else {
            unreachable!();
        };
    }
}

// There is room for a new task with so many names, and for what is wanted.
fn make_all_room<D: Device, R: Run>(
    core: &mut Core<D, R>,
    alloc: Global,
    wanted: Wanted,
    names: u64,
) -> Result<NewTask, Memory>
    ensures roomier { HasRoomier core.old core.new }
    ensures holds { IfOk result (λ new. CanLetIn core.new.locks new names) }
    ensures room { OnOk result (HasRoomFor wanted core.new) }
{
    let new = core.prepare_task(alloc, names)?;
    core.make_room(alloc, wanted)?;
    Ok(new)
}

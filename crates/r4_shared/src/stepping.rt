//! The steps of a run, each of which any core allows.

ghost use Rattle.std.specs.Prelude.{◌≡◌, ℕ, IfOk, None, OnErr};
ghost use Rattle.r4_apply.specs.declared.applying.Applied.{Applied as Answer};
ghost use Rattle.r4_apply.specs.r4_back.Backing.{GivesBack, RefusesMemory};
ghost use Rattle.r4_history.specs.Serving.{AsksForFlush};
ghost use Rattle.r4_shared.specs.Stepping.{AppliesOr, BringsBack, BuildsNext, IsFlushedAs, IsNext};
ghost use Rattle.r4_shared.specs.Stepping.{IsNextLeft};
ghost use Rattle.r4_apply.specs.r4_kept.View.{tables_of};

use r4_apply::{
    Applied, BuildFault, Built, Core, Taken, Task, apply, flush, give_back, refuse, refuse_memory,
    take,
};
use r4_base::{AtomNo, Memory, ScriptNo};
use r4_history::Why;
use r4_outside::{Device, Run};
use std::alloc::{AllocError, Global};

/// What a step came to, and what there is to do behind it (docs/core.md, "Threads").
#[derive(Drop)]
pub enum Next {
    /// This task is to be worked at.
    Work(Task),
    /// What came next in this script is answered.
    Replied(ScriptNo),
    /// This atom is sealed, and its commit is under way.
    Flushed(AtomNo),
    /// This atom could not be flushed for want of memory, which the scripts were told that wait for it.
    Unflushed(AtomNo),
    /// No script can be served: why the first one waits that is not finished.
    Wait(Why),
    /// All scripts are finished.
    Finished,
}

/// The next step: what there is to do is taken, and an atom that is to be flushed is flushed at once.
/// The only error is want of memory, or of numbers for cells and transactions; then the device
/// may have been read, there may be more room, and all else is as it was.
pub fn next_step<D: Device, R: Run>(core: &mut Core<D, R>, alloc: Global) -> Result<Next, Memory>
    ensures ok { IfOk result (IsNext D.state core.old core.new) }
    ensures builds { IfOk result BuildsNext }
    ensures err { OnErr result (IsNextLeft D.state core.old core.new) }
{
    if core.atoms().begun() == u32::MAX {
        return Err(AllocError);
    }
    match take(core, alloc)? {
        Taken::Work(task) => Ok(Next::Work(task)),
        Taken::Replied(script) => Ok(Next::Replied(script)),
        Taken::Flush(atom) => Ok(flush_next(core, alloc, atom)),
        Taken::Wait(why) => Ok(Next::Wait(why)),
        Taken::Finished => Ok(Next::Finished),
    }
}

// An atom is flushed for which a script waits.
fn flush_next<D: Device, R: Run>(core: &mut Core<D, R>, alloc: Global, atom: AtomNo) -> Next
    requires sound { core.old.broken ≡ None }
    requires rest { core.old.commit ≡ None }
    requires asked { (script : ℕ) × AsksForFlush (tables_of core.old) script atom }
    ensures { IsFlushedAs core.old core.new atom result }
{
    core.lawful();
    match flush(core, alloc, atom) {
        Ok(()) => Next::Flushed(atom),
        Err(AllocError) => Next::Unflushed(atom),
    }
}

/// A task comes back from whoever worked at it: built, and is applied; or as it went out, where there
/// was no memory, which its command is told. A task that the core does not know with these cells is
/// given back. No memory: there is room for all of it since the task went out.
pub fn bring_back<D: Device, R: Run>(
    core: &mut Core<D, R>,
    alloc: Global,
    built: Result<Built, BuildFault>,
)
    ensures { BringsBack core.old core.new built }
{
    match built {
        Err(BuildFault { task }) => refuse_task(core, task),
        Ok(built) => apply_built(core, alloc, built),
    }
}

// The command of a task is told that there is no memory.
fn refuse_task<D: Device, R: Run>(core: &mut Core<D, R>, task: Task)
    ensures { RefusesMemory core.old core.new task }
{
    refuse_memory(core, &task);
}

// What was built is applied.
fn apply_built<D: Device, R: Run>(core: &mut Core<D, R>, alloc: Global, built: Built)
    ensures { (a : Answer) × AppliesOr core.old core.new built a }
{
    match apply(core, alloc, built) {
        Applied::Done | Applied::Gone { .. } => (),
        Applied::Stale { task, .. } => give_task_back(core, task),
    }
}

// A task is given back.
fn give_task_back<D: Device, R: Run>(core: &mut Core<D, R>, task: Task)
    ensures { GivesBack core.old core.new task }
{
    give_back(core, &task);
}

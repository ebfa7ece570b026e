//! A job runs in a given way, until an atom is to be flushed or nothing is left to do.

ghost use Rattle.r4_apply.specs.r4_take.Sending.{CanBeBuilt};

use crate::opening::next;
use crate::telling::Log;
use r4_apply::{Applied, Built, Core, Differs, Taken, Task, apply, build};
use r4_base::{NodeId, ScriptNo};
use r4_outside::{MemoryDevice, OpenGate, Unnamed};
use std::alloc::Global;
use std::collections::VecDeque;
use std::test::Fail;

/// How many tasks are out at once, and whether the last one of them comes back first. One comes back
/// where so many are out, and where nothing else can be done.
#[derive(Clone, Copy, Debug, PartialEq, Eq)]
pub struct Way {
    pub out: usize,
    pub newest: bool,
}

/// What tells a task: its script, how many commands are answered there, and the first new number.
pub type Told = (ScriptNo, u32, u64);

/// What becomes of a task that comes back.
#[derive(Clone, Copy)]
pub enum After {
    Done,
    Gone(Told),
    Stale(NodeId, Differs),
}

/// Each task is applied before anything else is done.
pub const ONE: Way = Way {
    out: 1,
    newest: false,
};

/// All is done, up to the first flush or to the end.
///
/// # Errors
/// Where there is no memory, a body is in extents, a task is not built or comes back gone or stale,
/// or 1,000 steps are not enough.
pub fn run(
    core: &mut Core<MemoryDevice, Unnamed>,
    alloc: Global,
    way: Way,
    log: &mut Log,
) -> Result<(), Fail> {
    let mut tasks = VecDeque::new(alloc);
    for _ in 0..1000u32 {
        if !step(core, alloc, way, &mut tasks, log)? {
            return Ok(());
        }
    }
    Err(Fail::from("the run has no end"))
}

// The next thing is done. It is answered whether anything is left to do.
fn step(
    core: &mut Core<MemoryDevice, Unnamed>,
    alloc: Global,
    way: Way,
    tasks: &mut VecDeque<Built>,
    log: &mut Log,
) -> Result<bool, Fail> {
    log.tell(alloc, core.trace())?;
    if tasks.len() >= way.out {
        return come_back(core, alloc, way, tasks);
    }
    match next(core, alloc)? {
        Taken::Work(task) => go_out(alloc, task, tasks),
        Taken::Replied(_) => Ok(true),
        Taken::Wait(why) => {
            log.say_why(alloc, core, why)?;
            come_back(core, alloc, way, tasks)
        }
        Taken::Flush(_) if !tasks.is_empty() => come_back(core, alloc, way, tasks),
        Taken::Flush(atom) => log.say(alloc, "flush a", atom.0).map(|()| false),
        Taken::Finished => log.say_end().map(|()| false),
    }
}

// A task is built, and stays out.
fn go_out(alloc: Global, task: Task, tasks: &mut VecDeque<Built>) -> Result<bool, Fail>
    requires { CanBeBuilt task }
{
    let Ok(built) = build(alloc, &OpenGate, task) else {
        return Err(Fail::from("a task is not built"));
    };
    tasks.push_back(built)?;
    Ok(true)
}

// One of the tasks comes back, and is applied.
fn come_back(
    core: &mut Core<MemoryDevice, Unnamed>,
    alloc: Global,
    way: Way,
    tasks: &mut VecDeque<Built>,
) -> Result<bool, Fail> {
    let back = if way.newest {
        tasks.pop_back()
    } else {
        tasks.pop_front()
    };
    let Some(built) = back else {
        return Err(Fail::from("no task is out"));
    };
    match applied(core, alloc, built) {
        After::Done => Ok(true),
        After::Stale(..) => Err(Fail::from("a task is stale")),
        After::Gone(_) => Err(Fail::from("a task is gone")),
    }
}

/// What was built of a task is applied.
pub fn applied(core: &mut Core<MemoryDevice, Unnamed>, alloc: Global, built: Built) -> After {
    match apply(core, alloc, built) {
        Applied::Done => After::Done,
        Applied::Gone { task } => After::Gone(told(&task)),
        Applied::Stale {
            task: _,
            node,
            differs,
        } => After::Stale(node, differs),
    }
}

/// What tells a task.
pub fn told(task: &Task) -> Told {
    (task.script, task.index, task.fresh.next)
}

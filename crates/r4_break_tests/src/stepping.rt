//! Steps of a core, each by itself.

ghost use Rattle.std.specs.Prelude.{IfOk};
ghost use Rattle.r4_core_testing.specs.r4_take.Sending.{CanBeBuilt};

use r4_build::{Built, Task, build};
use r4_core_testing::{After, Core, Taken, applied, flush, next};
use r4_outside::{MemoryDevice, OpenGate, Unnamed};
use std::alloc::Global;
use std::test::Fail;

/// A core on a volume in memory.
pub type Running = Core<MemoryDevice, Unnamed>;

/// The task that goes out next, built.
pub fn built(core: &mut Running, alloc: Global) -> Result<Built, Fail> {
    let task = sent(core, alloc)?;
    built_of(alloc, task)
}

// The task that goes out next.
fn sent(core: &mut Running, alloc: Global) -> Result<Task, Fail>
    ensures { IfOk result CanBeBuilt }
{
    match next(core, alloc)? {
        Taken::Work(task) => Ok(task),
        _ => Err(Fail::from("no task goes out")),
    }
}

// A task is built.
fn built_of(alloc: Global, task: Task) -> Result<Built, Fail>
    requires { CanBeBuilt task }
{
    match build(alloc, &OpenGate, task) {
        Ok(built) => Ok(built),
        Err(_) => Err(Fail::from("a task is not built")),
    }
}

/// What was built of a task comes, and nothing stands against it.
pub fn come(core: &mut Running, alloc: Global, built: Built) -> Result<(), Fail> {
    match applied(core, alloc, built) {
        After::Done => Ok(()),
        _ => Err(Fail::from("a task is stale or gone")),
    }
}

/// The smallest atom that is left is sealed.
pub fn seal(core: &mut Running, alloc: Global) -> Result<(), Fail> {
    let sound = core.broken().is_none() && core.atom_under_way().is_none();
    match core.next_atom() {
        Some(atom) if sound => Ok(flush(core, alloc, atom)?),
        _ => Err(Fail::from("no atom can be flushed")),
    }
}

/// The commit that is under way goes on to its end.
pub fn commit(core: &mut Running) {
    for _ in 0..100u32 {
        core.commit_step();
    }
}

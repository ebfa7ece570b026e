//! Tasks that go out, and what is built of them.

ghost use Rattle.std.specs.Prelude.{IfOk};
ghost use Rattle.r4_core_testing.specs.r4_take.Sending.{CanBeBuilt};

use r4_build::{Built, Task, build};
use r4_core_testing::{Core, Taken, next};
use r4_outside::{MemoryDevice, OpenGate, Unnamed};
use std::alloc::Global;
use std::test::Fail;

/// A core on a volume in memory.
pub type Running = Core<MemoryDevice, Unnamed>;

/// The task that goes out next.
pub fn sent(core: &mut Running, alloc: Global) -> Result<Task, Fail>
    ensures { IfOk result CanBeBuilt }
{
    match next(core, alloc)? {
        Taken::Work(task) => Ok(task),
        _ => Err(Fail::from("no task goes out")),
    }
}

/// A task is built.
pub fn built_of(alloc: Global, task: Task) -> Result<Built, Fail>
    requires { CanBeBuilt task }
{
    match build(alloc, &OpenGate, task) {
        Ok(built) => Ok(built),
        Err(_) => Err(Fail::from("a task is not built")),
    }
}

/// The task that goes out next is built.
pub fn built(core: &mut Running, alloc: Global) -> Result<Built, Fail> {
    let task = sent(core, alloc)?;
    built_of(alloc, task)
}

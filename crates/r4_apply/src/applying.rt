//! Tasks that come back built.

ghost use Rattle.std.specs.Prelude.{◌≡◌, Err, IsSome, None};
ghost use Rattle.r4_apply.specs.Applying.{Applies};
ghost use Rattle.r4_back.specs.Backing.{IsCompared};
ghost use Rattle.r4_back.specs.r4_matching.declared.matching.Mismatch.TheVariants.{Gone};

use crate::making::{let_go, task_of};
use crate::working::work;
use r4_back::{Built, Core, Differs, Mismatch, Task, is_gone, matched, refuse_back};
use r4_base::NodeId;
use r4_content::Reply;
use r4_outside::{Device, Run};
use std::alloc::Global;

/// What becomes of a task that comes back built (docs/core.md, "Applying").
#[derive(Drop)]
pub enum Applied {
    /// Its command is answered.
    Done,
    /// The task is out, but this cell of it is not the one that was kept for it, and differs so.
    Stale {
        task: Task,
        node: NodeId,
        differs: Differs,
    },
    /// No such task is out.
    Gone {
        task: Task,
    },
}

/// A task comes back built: its command is done, and its change made; or it is refused, since less is
/// free than its change takes, or since a call of the device failed. A task that is not out, or has
/// other cells than it was given, changes nothing and goes back. No memory: there is room for all of
/// it since the task went out (docs/core.md, "Applying").
pub fn apply<D: Device, R: Run>(core: &mut Core<D, R>, alloc: Global, built: Built) -> Applied
    ensures { Applies core.old core.new built result }
{
    let found = matched(core, built.task());
    if is_gone(found) {
        return Applied::Gone {
            task: task_of(built),
        };
    }
    match core.broken() {
        Some(_) => apply_after_failure(core, built, found),
        None => apply_to(core, alloc, built, found),
    }
}

// By how it stands to the task that is out, while no call of the device failed.
fn apply_to<D: Device, R: Run>(
    core: &mut Core<D, R>,
    alloc: Global,
    built: Built,
    found: Result<(), Mismatch>,
) -> Applied
    requires sound { core.old.broken ≡ None }
    requires compared { IsCompared core.old built.task found }
    requires there { found ≡ Err Gone → ⊥ }
    ensures { Applies core.old core.new built result }
{
    match found {
        Ok(()) => {
            work(core, alloc, built);
            Applied::Done
        }
        Err(Mismatch::Stale { node, differs }) => Applied::Stale {
            task: task_of(built),
            node,
            differs,
        },
        Err(Mismatch::Gone) => unreachable!(),
    }
}

// After a call of the device failed each task that is out is refused.
fn apply_after_failure<D: Device, R: Run>(
    core: &mut Core<D, R>,
    built: Built,
    found: Result<(), Mismatch>,
) -> Applied
    requires failed { IsSome core.old.broken }
    requires compared { IsCompared core.old built.task found }
    requires there { found ≡ Err Gone → ⊥ }
    ensures { Applies core.old core.new built result }
{
    let script = built.task().script;
    refuse_back(core, script, Reply::Memory);
    let_go(built);
    Applied::Done
}

//! What was made of a task, as the core takes it.

ghost use Rattle.std.specs.Prelude.{◌≡◌, MatchBool, length};
ghost use Rattle.r4_apply.specs.Applying.{IsCountable, IsMadeOf};
ghost use Rattle.r4_back.specs.r4_build.Built.{IsBuilt};

use r4_back::{Built, Made, Task};
use r4_trace::Trace;

// How many entries a trace may have, so that two more can be counted.
const MOST_ENTRIES: u64 = (1 << 63) - 2;

// Whether two entries more can be counted. So it always is.
pub(crate) fn is_countable(trace: &Trace) -> bool
    ensures { MatchBool result
        (IsCountable (length trace.now.entries))
        (IsCountable (length trace.now.entries) → ⊥) }
{
    trace.len() <= MOST_ENTRIES
}

// What was built, taken apart.
pub(crate) fn made_of(built: Built) -> Made
    ensures made { IsMadeOf built result }
    ensures built { IsBuilt built }
{
    let (task, change, reply, objects) = built.into_parts();
    Made {
        command: task.command,
        reply,
        old: change.old,
        new: change.new.into_vec(),
        root: change.root,
        objects,
    }
}

// The task of what was built, as it was.
pub(crate) fn task_of(built: Built) -> Task
    ensures { result ≡ built.task }
{
    let (task, _, _, _) = built.into_parts();
    task
}

// What was built is of no use.
pub(crate) fn let_go(_built: Built) {}

//! What is built of any task (docs/volume.md, "Building").

ghost use Rattle.std.specs.Prelude.{◌≡◌, IfOk, MatchResult, false, true};
ghost use Rattle.std.specs.Arc.{arc_value};
ghost use Rattle.r4_put_tasks.specs.r4_build.Built.{IsBuilt, edits_for};
ghost use Rattle.r4_put_tasks.specs.r4_build.r4_leaf_edits.Suiting.{SuitLeaves};
ghost use Rattle.r4_content.specs.Fields.{HasBytePaths};
ghost use Rattle.r4_content.specs.Held.{pairs_of};
ghost use Rattle.r4_content.specs.Seen.{Rises};
ghost use Rattle.r4_suited.specs.Suited.{AreLawfulSeen};
ghost use Rattle.r4_made.specs.Making.{MayBeBuilt};

use crate::body::body_of_task;
use crate::spreading::change_of_task;
use r4_base::Memory;
use r4_content::{Edits, Reply};
use r4_outside::Gate;
use r4_put_tasks::{BuildFault, Built, Change, ObjectCounts, Task, build, plan};
use std::alloc::Global;

/// Makes of a task the change and the reply that its command means, wherever the body stands that
/// it changes, and counts the objects that come and go. First the gate is passed; no lock is taken.
/// In both answers the task is as it was given, its numbers included. The only error is want of
/// memory: so it is also said of a change that may not be made of the task's cells, or that has
/// more new cells than were told for it (docs/volume.md, "Building").
pub fn make<G: Gate>(alloc: Global, gate: &G, task: Task) -> Result<Built, BuildFault>
    requires task { MayBeBuilt task }
    requires rises { Rises (pairs_of (arc_value task.seen)) }
    requires paths { HasBytePaths task.command }
    requires lawful { AreLawfulSeen task.command (pairs_of (arc_value task.seen)) }
    requires suits { task.scope.in_leaves ≡ true → SuitLeaves 16384 (edits_for task) }
    ensures { MatchResult result (λ b. b.task ≡ task) (λ e. e.task ≡ task) }
{
    if task.scope.in_leaves {
        return build(alloc, gate, task);
    }
    gate.pass(task.script, task.index);
    match parts_of(alloc, &task) {
        Ok((change, reply, objects)) => Ok(Built::of(task, change, reply, objects)),
        Err(Memory) => Err(BuildFault { task }),
    }
}

// The change and the reply of a task whose cells have extents, and the numbers of objects.
fn parts_of(alloc: Global, task: &Task) -> Result<(Change, Reply, ObjectCounts), Memory>
    requires task { MayBeBuilt task.now }
    requires outside { task.now.scope.in_leaves ≡ false }
    requires rises { Rises (pairs_of (arc_value task.now.seen)) }
    requires paths { HasBytePaths task.now.command }
    requires lawful { AreLawfulSeen task.now.command (pairs_of (arc_value task.now.seen)) }
    ensures { IfOk result (λ p. IsBuilt (record {
      task = task.now;
      change = p.0;
      reply = p.1;
      objects = p.2;
    })) }
{
    let edits = plan(alloc, &task.command, &task.seen)?;
    let body = body_of_task(task, &edits)?;
    let change = change_of_task(alloc, task, body.as_ref(), &edits)?;
    if change.new.as_slice().len() as u64 > task.scope.most {
        return Err(Memory);
    }
    let objects = ObjectCounts::of(&task.command, &edits);
    let Edits { reply, .. } = edits;
    Ok((change, reply, objects))
}

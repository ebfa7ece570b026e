//! A command's change and its reply (docs/volume.md, "Building").

ghost use Rattle.std.specs.Prelude.{◌≡◌, IfOk, MatchResult, true};
ghost use Rattle.std.specs.Arc.{arc_value};
ghost use Rattle.r4_base.specs.Tree.{Root as TreeRoot, Store};
ghost use Rattle.r4_base.specs.Value.{Value};
ghost use Rattle.r4_content.specs.Held.{pairs_of};
ghost use Rattle.r4_content.specs.Seen.{Rises};
ghost use Rattle.r4_leaf_edits.specs.Suiting.{SuitLeaves};
ghost use Rattle.r4_build.specs.Built.{IsBuilt, IsTaskIn, edits_for};

use crate::building::change_of;
use crate::counting::ObjectCounts;
use crate::task::{BuildFault, Task};
use r4_base::Memory;
use r4_content::{Edits, Reply};
use r4_file::plan;
use r4_measure::Change;
use r4_outside::Gate;
use std::alloc::Global;
use std::marker::Model;

/// What was built of a task: the task as it was, the change, the reply, and how many objects come and go. It can be made
/// only of what is promised of these, so it keeps it (docs/volume.md, "Building").
#[derive(Drop)]
pub struct Built {
    task: Task,
    change: Change,
    reply: Reply,
    objects: ObjectCounts,
}

impl Model for Built {
    ghost use Rattle.r4_build.specs.Built.{BuiltSeen, IsBuilt};

    ghost Value = { BuiltSeen };

    ghost view = { λ b. record {
      task = b.task;
      change = b.change;
      reply = b.reply;
      objects = b.objects;
    } };

    ghost invariant = { λ b. IsBuilt (record {
      task = b.task;
      change = b.change;
      reply = b.reply;
      objects = b.objects;
    }) };
}

impl Built {
    /// What was built of a task, from its parts (docs/volume.md, "Building").
    pub fn of(task: Task, change: Change, reply: Reply, objects: ObjectCounts) -> Built
        requires { IsBuilt (record {
          task = task;
          change = change;
          reply = reply;
          objects = objects;
        }) }
        ensures task { result.task ≡ task }
        ensures change { result.change ≡ change }
        ensures reply { result.reply ≡ reply }
        ensures objects { result.objects ≡ objects }
    {
        Built {
            task,
            change,
            reply,
            objects,
        }
    }

    /// The task, as it was.
    pub fn task(&self) -> &Task
        ensures { result.now ≡ self.now.task }
    {
        &self.task
    }

    /// The change, and what is promised of it.
    pub fn change(&self) -> &Change
        ensures value { result.now ≡ self.now.change }
        ensures built { IsBuilt self.now }
    {
        &self.change
    }

    /// The reply.
    pub fn reply(&self) -> &Reply
        ensures { result.now ≡ self.now.reply }
    {
        &self.reply
    }

    /// How many objects the command makes and takes away.
    pub fn objects(&self) -> ObjectCounts
        ensures { result ≡ self.now.objects }
    {
        self.objects
    }

    /// The task, the change, the reply, and the numbers of objects.
    pub fn into_parts(self) -> (Task, Change, Reply, ObjectCounts)
        ensures task { result.0 ≡ self.task }
        ensures change { result.1 ≡ self.change }
        ensures reply { result.2 ≡ self.reply }
        ensures objects { result.3 ≡ self.objects }
        ensures built { IsBuilt self }
    {
        (self.task, self.change, self.reply, self.objects)
    }
}

/// Makes of a task the change and the reply that its command means, where its edits lie in leaves, and counts the
/// objects that come and go. First the gate is passed; no lock is taken. In both answers the task is as it was given,
/// its numbers included; the only error is want of memory, but that a command whose edits do not all lie in leaves has
/// that answer too, since its change is not made yet (docs/volume.md, "Building").
pub fn build<G: Gate>(alloc: Global, gate: &G, task: Task) -> Result<Built, BuildFault>
    requires task { (t : Store Value) × ((r : TreeRoot) × IsTaskIn t r task) }
    requires rises { Rises (pairs_of (arc_value task.seen)) }
    requires suits { task.scope.in_leaves ≡ true → SuitLeaves 16384 (edits_for task) }
    ensures { MatchResult result (λ b. b.task ≡ task) (λ e. e.task ≡ task) }
{
    gate.pass(task.script, task.index);
    match parts_of(alloc, &task) {
        Ok((change, reply, objects)) => Ok(Built {
            task,
            change,
            reply,
            objects,
        }),
        Err(Memory) => Err(BuildFault { task }),
    }
}

// The change and the reply of a task, and the numbers of objects.
fn parts_of(alloc: Global, task: &Task) -> Result<(Change, Reply, ObjectCounts), Memory>
    requires task { (t : Store Value) × ((r : TreeRoot) × IsTaskIn t r task.now) }
    requires rises { Rises (pairs_of (arc_value task.now.seen)) }
    requires suits { task.now.scope.in_leaves ≡ true → SuitLeaves 16384 (edits_for task.now) }
    ensures { IfOk result (λ p. IsBuilt (record {
      task = task.now;
      change = p.0;
      reply = p.1;
      objects = p.2;
    })) }
{
    if task.scope.in_leaves {
        parts_in_leaves(alloc, task)
    } else {
        Err(Memory)
    }
}

// The same of a task whose edits all lie in leaves.
fn parts_in_leaves(alloc: Global, task: &Task) -> Result<(Change, Reply, ObjectCounts), Memory>
    requires task { (t : Store Value) × ((r : TreeRoot) × IsTaskIn t r task.now) }
    requires rises { Rises (pairs_of (arc_value task.now.seen)) }
    requires leaves { task.now.scope.in_leaves ≡ true }
    requires suits { SuitLeaves 16384 (edits_for task.now) }
    ensures { IfOk result (λ p. IsBuilt (record {
      task = task.now;
      change = p.0;
      reply = p.1;
      objects = p.2;
    })) }
{
    let edits = plan(alloc, &task.command, &task.seen)?;
    let mut fresh = task.fresh;
    let change = change_of(alloc, task.writes.as_slice(), &edits, &mut fresh)?;
    let objects = ObjectCounts::of(&task.command, &edits);
    let Edits { reply, .. } = edits;
    Ok((change, reply, objects))
}

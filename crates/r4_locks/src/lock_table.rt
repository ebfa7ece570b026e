//! The table of holds.

ghost use Rattle.std.specs.Prelude.{◌≡◌, ◌≢◌, ℕ, ◌+◌, ◌<◌, ◌≤◌, [], length, min, slice_index_or, Option, None, Some, is_some, IsSome, IsOk, IfOk, OnOk, OnErr, IsTrue, nat_eq, true, false, if◌then◌else◌};
ghost use Rattle.std.specs.Map.{lookup};
ghost use Rattle.r4_locks.specs.Modes.{conflicts, freed, joined};
ghost use Rattle.r4_locks.specs.Locks.{CanLetIn, SameTasks, TakesNew, task_at, HasRoom, IsNew, IsTask, OthersAsBefore, Takes, UsesRoom, mode_in, mode_of, mode_with, is_named, room_of, IsHeld, IsClear, AreHolds, AsBefore, others, smallest_holder, first_conflict, conflict_of, busy_of};
ghost use Rattle.r4_locks.specs.Kept.{held_in};
ghost use Rattle.r4_locks.specs.declared.things.TakeFault.TheVariants.{Memory as no_memory};
ghost use Rattle.r4_locks.specs.declared.things.Mode.TheVariants.{Reads, Writes};

use crate::node_holds::NodeHolds;
use crate::task_holds::{NewTask, TaskHolds};
use crate::things::{Held, Mode, TakeFault, conflicts, held_with, joined};
use r4_base::{Memory, NodeId, TaskId};
use slab::Slab;
use std::alloc::Global;
use std::marker::Model;

/// Tasks and the nodes that they hold: for each node many tasks that read it, or one that writes it. A call looks at the
/// nodes that it is given, whatever else is held; only a refused one looks for the holder among the tasks.
#[derive(Drop)]
pub struct LockTable {
    nodes: NodeHolds,
    tasks: Slab<TaskHolds>,
}

impl Model for LockTable {
    ghost use Rattle.std.specs.Prelude.{◌&&◌, nat_lt};
    ghost use Rattle.slab.specs.Slab.{slab_len};
    ghost use Rattle.r4_locks.specs.Locks.{LocksSeen};
    ghost use Rattle.r4_locks.specs.Kept.{IsKept};

    ghost Value = { LocksSeen };

    ghost view = { λ t. record {
      tasks = t.tasks.slots;
      spare = t.nodes.room;
      lets_in = nat_lt (slab_len t.tasks) t.tasks.capacity && nat_lt t.tasks.vacant_key 4294967295;
    } };

    ghost invariant = { λ t. IsKept t.tasks.slots t.nodes.holders };
}

impl LockTable {
    /// A table without tasks. It takes no memory.
    pub fn new(alloc: Global) -> LockTable
        ensures { result.tasks ≡ [] }
    {
        LockTable {
            nodes: NodeHolds::new(alloc),
            tasks: Slab::new(alloc),
        }
    }

    /// A new task, which holds nothing. Its number, below 2^32 - 1, is one that no task has; one of a task that was released
    /// is given again. `Memory` comes where there is not enough, and where each of these numbers has a task.
    pub fn task(&mut self, alloc: Global) -> Result<TaskId, Memory>
        ensures number { IfOk result (λ who. task_at self.old who.0 ≡ None) }
        ensures holds { IfOk result (λ who. IsNew self.new who.0) }
        ensures others { IfOk result (λ who. OthersAsBefore self.old self.new who.0) }
        ensures spare { self.new.spare ≡ self.old.spare }
        ensures err { OnErr result (self.new ≡ record self.old { lets_in = self.new.lets_in }) }
    {
        let key = self.tasks.vacant_key();
        if key as u64 >= u32::MAX as u64 {
            return Err(Memory);
        }
        match self.tasks.insert(TaskHolds::new(alloc)) {
            Ok(key) => Ok(TaskId(key as u32)),
            Err(_failed) => Err(Memory),
        }
    }

    /// Makes all room that a new task needs to hold so many nodes: `let_in` then takes no memory.
    /// `Memory` comes where there is not enough, and where each number below 2^32 - 1 has a task.
    pub fn prepare(&mut self, alloc: Global, names: u64) -> Result<NewTask, Memory>
        ensures same { SameTasks self.old self.new }
        ensures ok { IfOk result (λ new. CanLetIn self.new new names) }
    {
        if self.tasks.vacant_key() as u64 >= u32::MAX as u64 {
            return Err(Memory);
        }
        self.nodes.room(names as usize)?;
        self.tasks.reserve(1)?;
        let mut holds = TaskHolds::new(alloc);
        holds.room(names as usize)?;
        Ok(NewTask { holds })
    }

    /// Lets a new task in, which takes all of these nodes; no other task is in its way. Its number
    /// is one that no task has. No memory.
    pub fn let_in(&mut self, new: NewTask, reads: &[NodeId], writes: &[NodeId]) -> TaskId
        requires room { CanLetIn self.old new (length reads.now + length writes.now) }
        requires clear { conflict_of self.old None reads.now writes.now ≡ None }
        ensures { TakesNew self.old self.new result.0 reads.now writes.now }
    {
        let who = self.admit(new);
        self.hold_all(who, writes, Mode::Writes);
        self.hold_all(who, reads, Mode::Reads);
        who
    }

    // The new task stands, and holds nothing yet.
    fn admit(&mut self, new: NewTask) -> TaskId
        requires { self.old.lets_in ≡ true }
        ensures unused { task_at self.old result.0 ≡ None }
        ensures holds { IsNew self.new result.0 }
        ensures others { OthersAsBefore self.old self.new result.0 }
        ensures room { min self.old.spare new ≤ room_of self.new result.0 }
    {
        let NewTask { holds } = new;
        TaskId(self.tasks.insert_reserved(holds) as u32)
    }

    /// Makes room: a `take_all` of this task with at most so many names, in both lists together, then takes no memory.
    pub fn room(&mut self, _alloc: Global, who: TaskId, names: u64) -> Result<(), Memory>
        requires { IsTask self.old who.0 }
        ensures holds { AsBefore self.old self.new }
        ensures others { OthersAsBefore self.old self.new who.0 }
        ensures ok { OnOk result (names ≤ room_of self.new who.0) }
        ensures enough { names ≤ room_of self.old who.0 → IsOk result }
        ensures room { UsesRoom self.old self.new 0 }
    {
        self.nodes.room(names as usize)?;
        let Some(task) = self.tasks.get_mut(who.0 as usize) else {
            unreachable!();
        };
        task.room(names as usize)
    }

    /// Who holds a node. No memory.
    pub fn held(&self, node: NodeId) -> Held
        ensures { IsHeld self.now node.0 result }
    {
        self.nodes.held(node)
    }

    /// No two tasks hold one node in conflicting modes.
    pub fn lawful(&self)
        ensures { AreHolds self.now }
    {
        let _ = &self.nodes;
    }

    /// What `take_all` of a task without holds would name. No memory.
    pub fn conflict(&self, reads: &[NodeId], writes: &[NodeId]) -> Option<(NodeId, TaskId)>
        ensures { result ≡ conflict_of self.now None reads.now writes.now }
    {
        self.first_of_all(None, reads, writes)
    }

    /// Takes all of these nodes, or none. `Busy` names the first node of `writes`, or else the first of `reads`, that
    /// another task holds in a mode that conflicts, and the smallest such task.
    pub fn take_all(
        &mut self,
        alloc: Global,
        who: TaskId,
        reads: &[NodeId],
        writes: &[NodeId],
    ) -> Result<(), TakeFault>
        requires { IsTask self.old who.0 }

        // When it is refused.
        ensures busy { busy_of result ≡ conflict_of self.old (Some who) reads.now writes.now }
        ensures enough { HasRoom self.old who.0 reads.now writes.now → result ≢ Err no_memory }

        // What is held afterwards.
        ensures ok { OnOk result (Takes self.old self.new who.0 reads.now writes.now) }
        ensures err { OnErr result (AsBefore self.old self.new) }
        ensures stands { IsTask self.new who.0 }
        ensures others { OthersAsBefore self.old self.new who.0 }
        ensures room { UsesRoom self.old self.new (length reads.now + length writes.now) }
    {
        if let Some((node, holder)) = self.first_of_all(Some(who), reads, writes) {
            return Err(TakeFault::Busy { node, holder });
        }
        self.room(alloc, who, reads.len() as u64 + writes.len() as u64)?;
        self.hold_all(who, writes, Mode::Writes);
        self.hold_all(who, reads, Mode::Reads);
        Ok(())
    }

    /// The task stands no more and holds nothing. No memory.
    pub fn release(&mut self, who: TaskId)
        requires { IsTask self.old who.0 }
        ensures gone { task_at self.new who.0 ≡ None }
        ensures others { OthersAsBefore self.old self.new who.0 }
        ensures spare { self.old.spare ≤ self.new.spare }
    {
        if let Some(task) = self.tasks.try_remove(who.0 as usize) {
            let_all_go(&mut self.nodes, task);
        }
    }

    // The first conflict of all these names.
    fn first_of_all(
        &self,
        mine: Option<TaskId>,
        reads: &[NodeId],
        writes: &[NodeId],
    ) -> Option<(NodeId, TaskId)>
        ensures { result ≡ conflict_of self.now mine reads.now writes.now }
    {
        match self.first_of(mine, writes, Mode::Writes) {
            Some(found) => Some(found),
            None => self.first_of(mine, reads, Mode::Reads),
        }
    }

    // The first conflict of these names.
    fn first_of(
        &self,
        mine: Option<TaskId>,
        names: &[NodeId],
        wanted: Mode,
    ) -> Option<(NodeId, TaskId)>
        ensures { result ≡ first_conflict self.now mine wanted names.now }
    {
        for node in names {
            if let Some(holder) = self.holder(mine, *node, wanted) {
                return Some((*node, holder));
            }
        }
        None
    }

    // The smallest other task that holds a node in the way. The tasks are looked at only where there is one.
    fn holder(&self, mine: Option<TaskId>, node: NodeId, wanted: Mode) -> Option<TaskId>
        ensures { result ≡ smallest_holder self.now mine wanted node.0 }
    {
        if self.is_clear(mine, node, wanted) {
            return None;
        }
        for key in 0..self.tasks.capacity() {
            if self.is_in_the_way(mine, key, node, wanted) {
                return Some(TaskId(key as u32));
            }
        }
        None
    }

    // Whether the holders of a node show that no other task is in the way.
    fn is_clear(&self, mine: Option<TaskId>, node: NodeId, wanted: Mode) -> bool
        ensures { IsTrue result → smallest_holder self.now mine wanted node.0 ≡ None }
    {
        match (wanted, self.held(node)) {
            (_, Held::Free) | (Mode::Reads, Held::Read { tasks: _ }) => true,
            (_, Held::Write { by }) => is_mine(mine, by),
            (Mode::Writes, Held::Read { tasks }) => tasks == 1 && self.is_held_by(mine, node),
        }
    }

    // Whether this task holds a node.
    fn is_held_by(&self, mine: Option<TaskId>, node: NodeId) -> bool
        ensures { IsTrue result →
            (who : TaskId) × (mine ≡ Some who) × IsSome (mode_of self.now who.0 node.0) }
    {
        match mine {
            Some(who) => match self.tasks.get(who.0 as usize) {
                Some(task) => task.mode(node).is_some(),
                None => false,
            },
            None => false,
        }
    }

    // Whether the task of this number is another one that holds a node in the way.
    fn is_in_the_way(&self, mine: Option<TaskId>, key: usize, node: NodeId, wanted: Mode) -> bool
        ensures way { result ≡
            conflicts wanted (mode_in (slice_index_or (others mine self.now.tasks) key None) node.0) }
        ensures small { IsTrue result → key < 4294967295 }
    {
        let is_other = match mine {
            Some(who) => who.0 as usize != key,
            None => true,
        };
        match self.tasks.get(key) {
            Some(task) => is_other && conflicts(wanted, task.mode(node)),
            None => false,
        }
    }

    // Takes nodes that no other task holds in the way, and for which there is room.
    fn hold_all(&mut self, who: TaskId, names: &[NodeId], wanted: Mode)
        requires stands { IsTask self.old who.0 }
        requires room { length names.now ≤ room_of self.old who.0 }
        requires clear { (n : ℕ) → is_named names.now n ≡ true → IsClear self.old who.0 wanted n }
        ensures mine { (n : ℕ) →
            mode_of self.new who.0 n ≡ mode_with wanted names.now n (mode_of self.old who.0 n) }
        ensures stands { IsTask self.new who.0 }
        ensures others { OthersAsBefore self.old self.new who.0 }
        ensures room { UsesRoom self.old self.new (length names.now) }
    {
        for node in names {
            self.hold(who, *node, wanted);
        }
    }

    // Takes a node that no other task holds in the way, and for which there is room.
    fn hold(&mut self, who: TaskId, node: NodeId, wanted: Mode)
        requires stands { IsTask self.old who.0 }
        requires room { 0 < room_of self.old who.0 }
        requires clear { IsClear self.old who.0 wanted node.0 }
        ensures mine { (n : ℕ) →
            mode_of self.new who.0 n ≡ if nat_eq node.0 n then Some (joined (mode_of self.old who.0 n) wanted) else
            mode_of self.old who.0 n }
        ensures stands { IsTask self.new who.0 }
        ensures others { OthersAsBefore self.old self.new who.0 }
        ensures room { UsesRoom self.old self.new 1 }
    {
        let held = self.nodes.held(node);
        let Some(task) = self.tasks.get_mut(who.0 as usize) else {
            unreachable!();
        };
        let mode = task.mode(node);
        task.put(node, joined(mode, wanted));
        self.nodes.put(node, held_with(who, mode, wanted, held));
    }
}

// A task that is gone lets go of all that it held.
fn let_all_go(nodes: &mut NodeHolds, task: TaskHolds)
    ensures held { (n : ℕ) →
        held_in nodes.new.holders n ≡ freed (lookup (nat_eq n) task.holds) (held_in nodes.old.holders n) }
    ensures room { nodes.old.room ≤ nodes.new.room }
{
    for (node, mode) in task.modes {
        nodes.let_go(NodeId(node), mode);
    }
}

// Whether it is this task.
fn is_mine(mine: Option<TaskId>, who: TaskId) -> bool
    ensures { IsTrue result → mine ≡ Some who }
{
    match mine {
        Some(own) => own.0 == who.0,
        None => false,
    }
}

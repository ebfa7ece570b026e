//! Commands go out as tasks.

ghost use Rattle.std.specs.Prelude.{◌≡◌, IfOk};
ghost use Rattle.r4_buffer.specs.Seen.{cells_of};
ghost use Rattle.r4_core.specs.Handing.{CanHandOut, HasNoneOut, as_task};
ghost use Rattle.r4_locks.specs.Locks.{CanLetIn};
ghost use Rattle.r4_ready.specs.r4_taking.GoingOut.{HasGoneOut};

use crate::core_state::Core;
use r4_base::{Memory, ScriptNo, TaskId, TxnNo};
use r4_cell::{Cell, Cells};
use r4_content::Seen;
use r4_locks::NewTask;
use r4_outside::{Device, Run};
use r4_ready::{NodesNeeded, Numbers};
use r4_turns::{Nodes, Numbers as Drawn, Out, Scope};
use std::alloc::Global;
use std::sync::Arc;

/// What a command is given that goes out as a task: its transaction, the cells that it reads and
/// those that it writes, the nodes that are kept for it, what was seen at the keys that it asks
/// for, what is known of its reach besides, its numbers, and for how many cells and claims on blocks there is room for it.
#[derive(Drop)]
pub struct Given {
    pub txn: TxnNo,
    pub reads: Cells,
    pub writes: Cells,
    pub pins: Nodes,
    pub seen: Arc<Seen>,
    pub scope: Scope,
    pub numbers: Drawn,
    pub cells: u64,
    pub claims: u64,
}

impl Given {
    // Its task, under this number.
    fn into_task(self, task: TaskId) -> Out
        ensures { result ≡ as_task self task }
    {
        let Given {
            txn,
            reads,
            writes,
            pins,
            seen,
            scope,
            numbers,
            cells,
            claims,
        } = self;
        Out {
            task,
            txn,
            reads,
            writes,
            pins,
            seen,
            scope,
            numbers,
            cells,
            claims,
        }
    }
}

/// A command that is to go out: what its task needs to take holds, what it is given, the nodes that it
/// takes holds of, the cells that were met, and the numbers that are next then.
#[derive(Drop)]
pub struct GoingOut {
    pub new: NewTask,
    pub given: Given,
    pub need: NodesNeeded,
    pub met: Vec<Arc<Cell>>,
    pub next: Numbers,
}

impl<D: Device, R: Run> Core<D, R> {
    /// What a new task needs to take holds of so many nodes: then that takes no memory. All is as
    /// before but for places in the table of holds. The only error is want of memory.
    pub fn prepare_task(&mut self, alloc: Global, names: u64) -> Result<NewTask, Memory>
        ensures same { HasNoneOut self.old self.new }
        ensures ok { IfOk result (λ new. CanLetIn self.new.locks new names) }
    {
        self.locks.prepare(alloc, names)
    }

    /// The next command of a script goes out as a new task, whatever number that gets: it takes
    /// holds of the nodes of its cells, and the cells that were met are kept in memory for it. No
    /// other task is in its way. No memory.
    pub fn hand_out(&mut self, script: ScriptNo, going: GoingOut) -> TaskId
        requires { CanHandOut (D.state self.old.dev) self.old script.0 going }
        ensures out { HasGoneOut self.old self.new script.0 (as_task going.given result)
            (cells_of going.met.items) }
        ensures numbers { self.new.numbers ≡ going.next }
    {
        self.buffer.lawful();
        let GoingOut {
            new,
            given,
            need,
            met,
            next,
        } = going;
        let task = self.locks.let_in(new, need.reads(), need.writes());
        self.turns.take_out(script, given.into_task(task));
        self.buffer.use_all(met);
        self.buffer.lawful();
        self.numbers = next;
        task
    }
}

//! Holds of nodes.

ghost use Rattle.std.specs.Prelude.{IfOk, OnErr};
ghost use Rattle.r4_locks.specs.Locks.{IsTask};

use crate::same::same;
use r4_base::{Memory, NodeId, TaskId};
use r4_locks::{Held, LockTable, TakeFault};
use std::alloc::Global;
use std::process::Abort;
use std::test::Fail;

// A new task; once more where memory was refused.
fn task(alloc: Global, table: &mut LockTable) -> Result<TaskId, Memory>
    ensures { IfOk result (λ who. IsTask table.new who.0) }
{
    match table.task(alloc) {
        Ok(who) => Ok(who),
        Err(_refused) => table.task(alloc),
    }
}

// A task takes a node; once more where memory was refused, and then all stands as before.
fn take<X: Abort>(rt: &X, alloc: Global, table: &mut LockTable, who: TaskId)
    requires { IsTask table.old who.0 }
{
    let node = NodeId(23);
    match table.take_all(alloc, who, &[node], &[]) {
        Ok(()) => {}
        Err(fault) => {
            same(rt, &fault, &TakeFault::Memory, "why nothing was taken");
            same(rt, &table.held(node), &Held::Free, "the node, as before");
            let again = table.take_all(alloc, who, &[node], &[]);
            same(rt, &again, &Ok(()), "taken when it comes again");
        }
    }
    same(rt, &table.held(node), &Held::Read { tasks: 1 }, "the node");
}

// A new task takes a node.
fn task_takes<X: Abort>(rt: &X, alloc: Global, table: &mut LockTable) -> Result<(), Fail> {
    let who = task(alloc, table)?;
    take(rt, alloc, table, who);
    Ok(())
}

#[test]
fn holds_stay_where_memory_is_refused(rt: HostRuntime) -> Result<(), Fail> {
    let alloc = rt.alloc();
    let mut table = LockTable::new(alloc);
    task_takes(&rt, alloc, &mut table)
}

//! Tests of the table of holds.

use r4_base::{NodeId, TaskId};
use r4_locks::{Held, LockTable, TakeFault};
use std::alloc::Global;
use std::process::Abort;
use std::test::Fail;

// Ends the test unless a node is held so.
fn same_hold<X: Abort>(rt: &X, table: &LockTable, node: u64, wanted: Held) {
    assert_eq!(rt; table.held(NodeId(node)), wanted, "{node}");
}

// Ends the test unless this node, which a task holds, is what was found to stand in the way.
fn same_conflict<X: Abort>(rt: &X, found: Option<(NodeId, TaskId)>, node: u64, holder: TaskId) {
    assert_eq!(rt; found, Some((NodeId(node), holder)));
}

// A second task wants to write what a first one reads.
fn refuse_a_writer<X: Abort>(rt: &X, alloc: Global, table: &mut LockTable) -> Result<(), Fail> {
    let first = table.task(alloc)?;
    let second = table.task(alloc)?;
    let wanted = [NodeId(23)];
    table
        .take_all(alloc, first, &wanted, &[])
        .ok()
        .ok_or("taken")?;
    let refused = Err(TakeFault::Busy {
        node: NodeId(23),
        holder: first,
    });
    assert_eq!(rt; table.take_all(alloc, second, &[], &wanted), refused);
    same_conflict(rt, table.conflict(&[], &wanted), 23, first);
    same_hold(rt, table, 23, Held::Read { tasks: 1 });
    Ok(())
}

#[test]
fn a_reader_keeps_a_writer_out(rt: HostRuntime) -> Result<(), Fail> {
    let mut table = LockTable::new(rt.alloc());
    refuse_a_writer(&rt, rt.alloc(), &mut table)
}

// Two tasks read a node, and each writes another one; then the first ends.
fn read_and_write<X: Abort>(rt: &X, alloc: Global, table: &mut LockTable) -> Result<(), Fail> {
    let first = table.task(alloc)?;
    let second = table.task(alloc)?;
    let reads = [NodeId(7), NodeId(7), NodeId(8)];
    table
        .take_all(alloc, first, &reads, &[NodeId(8)])
        .ok()
        .ok_or("first")?;
    table
        .take_all(alloc, second, &[NodeId(7)], &[NodeId(9)])
        .ok()
        .ok_or("second")?;
    same_hold(rt, table, 7, Held::Read { tasks: 2 });
    same_hold(rt, table, 8, Held::Write { by: first });
    let found = table.conflict(&[NodeId(7), NodeId(9)], &[NodeId(10), NodeId(8)]);
    same_conflict(rt, found, 8, first);
    table.release(first);
    same_hold(rt, table, 8, Held::Free);
    same_hold(rt, table, 7, Held::Read { tasks: 1 });
    Ok(())
}

#[test]
fn many_read_and_one_writes(rt: HostRuntime) -> Result<(), Fail> {
    let mut table = LockTable::new(rt.alloc());
    read_and_write(&rt, rt.alloc(), &mut table)
}

// A thousand tasks read a node, and each writes another one.
fn begin_a_thousand<X: Abort>(rt: &X, alloc: Global, table: &mut LockTable) -> Result<(), Fail> {
    for i in 0..1000u64 {
        let who = table.task(alloc)?;
        table.room(alloc, who, 2)?;
        table
            .take_all(alloc, who, &[NodeId(7)], &[NodeId(100 + i)])
            .ok()
            .ok_or("taken")?;
    }
    same_hold(rt, table, 7, Held::Read { tasks: 1000 });
    let own = table.task(alloc)?;
    assert_eq!(rt; own.0, 1000);
    let refused = table.conflict(&[NodeId(1099)], &[NodeId(50)]);
    same_conflict(rt, refused, 1099, TaskId(999));
    Ok(())
}

#[test]
fn a_thousand_tasks(rt: HostRuntime) -> Result<(), Fail> {
    let mut table = LockTable::new(rt.alloc());
    begin_a_thousand(&rt, rt.alloc(), &mut table)
}

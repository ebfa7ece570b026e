//! Tests of matching.

use crate::{Differs, Mismatch, match_task};
use r4_base::{Block, Key, Memory, NodeId, Oid, ScriptNo, TaskId, TxnNo};
use r4_build::Task;
use r4_cell::{Cell, Cells, Fresh, Root, read_cell};
use r4_content::{Command, Seen};
use r4_turns::{Nodes, Numbers, Out, Scope};
use std::alloc::Global;
use std::sync::Arc;
use std::test::Fail;

const FRESH: Fresh = Fresh {
    next: 9223372036854775808,
    end: 9223372036854775809,
};

const SCOPE: Scope = Scope {
    root: Root {
        id: NodeId(22),
        height: 2,
    },
    in_leaves: true,
    in_extents: false,
    most: 1,
};

// One cell, a data block of zeros but for the byte at place 100.
fn one_cell(alloc: Global, byte: u8) -> Result<Cells, Memory> {
    let mut block = Block::zeroed(alloc)?;
    let bytes = block.bytes_mut();
    bytes[100] = byte;
    let first = Key { el: [0; 4] };
    let cell: Arc<Cell> = match read_cell(alloc, NodeId(30), 0, first, first, 64, block) {
        Ok(cell) => cell,
        Err(_) => return Err(Memory),
    };
    let mut cells = Vec::new(alloc);
    cells.push(cell)?;
    Ok(Cells::from_vec(cells))
}

fn nothing_seen(alloc: Global) -> Result<Arc<Seen>, Memory> {
    let parts = Vec::new(alloc);
    Ok(Arc::new(alloc, Seen { parts })?)
}

// A command that is out.
fn out_of(alloc: Global) -> Result<Out, Memory> {
    Ok(Out {
        task: TaskId(3),
        txn: TxnNo(1),
        reads: Cells::new(alloc),
        writes: one_cell(alloc, 7)?,
        pins: Nodes::from_vec(Vec::new(alloc)),
        seen: nothing_seen(alloc)?,
        scope: SCOPE,
        numbers: Numbers {
            oid: Oid(42),
            fresh: FRESH,
        },
        cells: 0,
        claims: 0,
    })
}

// A task of it, at this place of its script and with this byte in its cell.
fn task_of(alloc: Global, index: u32, byte: u8) -> Result<Task, Memory> {
    Ok(Task {
        id: TaskId(3),
        script: ScriptNo(2),
        index,
        txn: TxnNo(1),
        command: Command::Commit,
        reads: Cells::new(alloc),
        writes: one_cell(alloc, byte)?,
        seen: nothing_seen(alloc)?,
        scope: SCOPE,
        fresh: FRESH,
    })
}

#[test]
fn tasks_that_come_back(rt: HostRuntime) -> Result<(), Fail> {
    let out = out_of(rt.alloc())?;
    let rows = [
        (5, 7, Ok(())),
        (6, 7, Err(Mismatch::Gone)),
        (
            5,
            9,
            Err(Mismatch::Stale {
                node: NodeId(30),
                differs: Differs::Byte {
                    at: 100,
                    had: 9,
                    has: 7,
                },
            }),
        ),
    ];
    for (index, byte, want) in rows {
        let task = task_of(rt.alloc(), index, byte)?;
        let found = match_task(&out, ScriptNo(2), 5, &Command::Commit, &task);
        assert_eq!(rt; found, want);
    }
    Ok(())
}

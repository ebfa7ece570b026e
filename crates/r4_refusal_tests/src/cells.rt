//! Cells that are put into memory, and swept out of it.

use crate::same::same;
use r4_base::{Block, Key, NodeId, Oid};
use r4_buffer::Buffer;
use r4_cell::{Cell, read_cell};
use std::alloc::Global;
use std::process::Abort;
use std::sync::Arc;
use std::test::Fail;

const ID: NodeId = NodeId(30);

// A list of one block of a file, if there is memory.
fn made(alloc: Global) -> Option<Vec<Arc<Cell>>> {
    let block = Block::zeroed(alloc).ok()?;
    let lo = Key::body(41, 0, Oid(42), 0);
    let cell = read_cell(alloc, ID, 0, lo, lo.with_offset(4096), 64, block).ok()?;
    let mut met = Vec::new(alloc);
    met.push(cell).ok()?;
    Some(met)
}

// The same; once more where memory was refused.
fn one_block(alloc: Global) -> Result<Vec<Arc<Cell>>, Fail> {
    match made(alloc).or_else(|| made(alloc)) {
        Some(met) => Ok(met),
        None => Err(Fail::from("a block")),
    }
}

// The block is in memory, and no task uses it.
fn stands(alloc: Global, buffer: &mut Buffer) -> Result<(), Fail> {
    let met = one_block(alloc)?;
    if met.len() as u64 > buffer.spare() {
        return Err(Fail::from("room for a cell"));
    }
    buffer.use_all(met);
    buffer.unuse(&[ID]);
    Ok(())
}

// Room for a cell; once more where memory was refused, and then all stands as before.
fn room<X: Abort>(rt: &X, alloc: Global, buffer: &mut Buffer) {
    if buffer.room(alloc, 1).is_err() {
        same(rt, &buffer.spare(), &0, "the room, as before");
        let again = buffer.room(alloc, 1).is_ok();
        same(rt, &again, &true, "room when it comes again");
    }
}

// The cell is swept; once more where memory was refused, and then all stands as before.
fn sweep<X: Abort>(rt: &X, alloc: Global, buffer: &mut Buffer) {
    if buffer.sweep(alloc, 0).is_err() {
        same(rt, &buffer.get(ID).is_some(), &true, "the cell, as before");
        let again = buffer.sweep(alloc, 0).is_ok();
        same(rt, &again, &true, "swept when it comes again");
    }
    same(rt, &buffer.get(ID).is_none(), &true, "the cell is gone");
}

// A cell comes, and goes.
fn put_and_sweep<X: Abort>(rt: &X, alloc: Global, buffer: &mut Buffer) -> Result<(), Fail> {
    room(rt, alloc, buffer);
    stands(alloc, buffer)?;
    sweep(rt, alloc, buffer);
    Ok(())
}

#[test]
fn cells_stay_where_memory_is_refused(rt: HostRuntime) -> Result<(), Fail> {
    let alloc = rt.alloc();
    let mut buffer = Buffer::new(alloc);
    put_and_sweep(&rt, alloc, &mut buffer)
}

//! What becomes of the cells in memory.

use crate::cells::{cell, put_leaf, put_one, rename, same, stands, stands_as, use_made};
use r4_base::{BlockNo, NodeId};
use r4_buffer::Buffer;
use r4_cell::Cell;
use std::alloc::Global;
use std::process::Abort;
use std::sync::Arc;
use std::test::Fail;

const NONE: (bool, u32, bool) = (false, 0, false);

const FRESH: u64 = 1 << 63;

// Less use than there was, of names that have a cell and of one that has none.
fn unuse(buffer: &mut Buffer, ids: &[NodeId]) {
    buffer.unuse(ids);
}

#[test]
fn uses_are_counted(rt: HostRuntime) -> Result<(), Fail> {
    let mut buffer = Buffer::new(rt.alloc());
    use_twice(rt.alloc(), &mut buffer)?;
    stands_as(&rt, &buffer, 23, (true, 2, false), "two tasks");
    let leaf = NodeId(23);
    unuse(&mut buffer, &[leaf, leaf, leaf, NodeId(99)]);
    stands_as(&rt, &buffer, 23, (true, 0, false), "no task");
    use_made(rt.alloc(), &mut buffer, 23, 2, 0, 50)?;
    has_level(&rt, &buffer, 2);
    Ok(())
}

// Two tasks use a leaf.
fn use_twice(alloc: Global, buffer: &mut Buffer) -> Result<(), Fail> {
    use_made(alloc, buffer, 23, 1, 0, 90)?;
    use_made(alloc, buffer, 23, 1, 0, 50)
}

// The cell under the leaf's name is of this level.
fn has_level<X: Abort>(rt: &X, buffer: &Buffer, level: u8) {
    let got = buffer.get(NodeId(23)).map(|cell| cell.level());
    same(rt, &got, &Some(level), "an idle cell is replaced");
}

#[test]
fn new_cells_stand_in_place_of_old_ones(rt: HostRuntime) -> Result<(), Fail> {
    let mut buffer = Buffer::new(rt.alloc());
    join_leaves(rt.alloc(), &mut buffer)?;
    stands_as(&rt, &buffer, 23, (true, 1, true), "the name that stays");
    stands_as(&rt, &buffer, 24, NONE, "the name that goes");
    buffer.clean(&[NodeId(23)]);
    stands_as(&rt, &buffer, 23, (true, 1, false), "committed");
    Ok(())
}

// Two leaves that tasks use, and one in place of both.
fn join_leaves(alloc: Global, buffer: &mut Buffer) -> Result<(), Fail> {
    let mut old = Vec::new(alloc);
    push_leaf(alloc, &mut old, 23, 0, 90)?;
    push_leaf(alloc, &mut old, 24, 90, 99)?;
    use_made(alloc, buffer, 23, 1, 0, 90)?;
    use_made(alloc, buffer, 24, 1, 90, 99)?;
    put_one(alloc, buffer, &old, cell(alloc, 23, 1, 0, 99)?)
}

// One more leaf that is made.
fn push_leaf(
    alloc: Global,
    leaves: &mut Vec<Arc<Cell>>,
    id: u64,
    lo: u64,
    hi: u64,
) -> Result<(), Fail> {
    leaves.push(cell(alloc, id, 1, lo, hi)?)?;
    Ok(())
}

// The leaf 23 of a damaged image is not marked, so that a flush gives its number to a fresh cell.
#[test]
fn a_cell_stays_where_another_gets_its_name(rt: HostRuntime) -> Result<(), Fail> {
    let mut buffer = Buffer::new(rt.alloc());
    name_as_another(rt.alloc(), &mut buffer)?;
    stands_as(&rt, &buffer, 23, (true, 2, false), "the leaf");
    stands_as(&rt, &buffer, FRESH, NONE, "the fresh name");
    unuse(&mut buffer, &[NodeId(23), NodeId(23)]);
    stands_as(&rt, &buffer, 23, (true, 0, false), "no task is out");
    rename_made(rt.alloc(), &mut buffer, 23, 30, 0, 90)?;
    stands_as(&rt, &buffer, 30, (true, 0, false), "a free name");
    Ok(())
}

// A fresh leaf comes under the name of a leaf that a task uses.
fn name_as_another(alloc: Global, buffer: &mut Buffer) -> Result<(), Fail> {
    use_made(alloc, buffer, 23, 1, 0, 90)?;
    put_leaf(alloc, buffer, FRESH, 90, 99)?;
    use_made(alloc, buffer, FRESH, 1, 90, 99)?;
    rename_made(alloc, buffer, FRESH, 23, 90, 99)
}

// A leaf that is made comes in place of another name.
fn rename_made(
    alloc: Global,
    buffer: &mut Buffer,
    from: u64,
    id: u64,
    lo: u64,
    hi: u64,
) -> Result<(), Fail> {
    rename(alloc, buffer, from, cell(alloc, id, 1, lo, hi)?)
}

// A root, a twig and two leaves below it, of which one is dirty.
#[test]
fn ancestors_of_dirty_cells_stay(rt: HostRuntime) -> Result<(), Fail> {
    let mut buffer = Buffer::new(rt.alloc());
    fill_idle(rt.alloc(), &mut buffer)?;
    put_leaf(rt.alloc(), &mut buffer, 26, 0, 20)?;
    buffer.sweep(rt.alloc(), 4)?;
    same(
        &rt,
        &stands(&buffer, 25).0,
        &true,
        "no more than four are idle",
    );
    buffer.forget(BlockNo(24));
    buffer.sweep(rt.alloc(), 3)?;
    are_swept(&rt, &buffer);
    clean_and_sweep(&rt, rt.alloc(), &mut buffer)
}

// Cells that no task uses any more.
fn fill_idle(alloc: Global, buffer: &mut Buffer) -> Result<(), Fail> {
    for (id, level, lo, hi) in [
        (22, 3, 0, 99),
        (24, 2, 0, 50),
        (25, 2, 50, 99),
        (27, 1, 20, 50),
    ] {
        use_made(alloc, buffer, id, level, lo, hi)?;
        unuse(buffer, &[NodeId(id)]);
    }
    Ok(())
}

// The dirty leaf stays, and what is above it.
fn are_swept<X: Abort>(rt: &X, buffer: &Buffer) {
    for (id, stays) in [(22, true), (24, true), (25, false), (26, true), (27, false)] {
        same(
            rt,
            &(stands(buffer, id).0, buffer.is_captured(NodeId(id))),
            &(stays, stays),
            "swept",
        );
    }
}

// What is left goes where nothing is dirty.
fn clean_and_sweep<X: Abort>(rt: &X, alloc: Global, buffer: &mut Buffer) -> Result<(), Fail> {
    buffer.clean(&[NodeId(26)]);
    buffer.forget(BlockNo(24));
    stands_as(rt, buffer, 24, NONE, "forgotten");
    buffer.sweep(alloc, 0)?;
    stands_as(rt, buffer, 26, NONE, "all are idle");
    Ok(())
}

//! Changes of a tree: which are joined, and which node two of them have in common.

use crate::same::same_in;
use r4_base::{Block, Key, NodeId, Oid};
use r4_cell::{Cell, Cells, Change, Root, read_cell};
use r4_patch::{JoinFault, join};
use std::alloc::Global;
use std::sync::Arc;
use std::test::Fail;

// Two changes by the numbers of their old cells, and what joining them answers: how many old cells there are then.
struct Case {
    one: &'static [u64],
    two: &'static [u64],
    answer: Result<usize, JoinFault>,
}

const ROOT: Root = Root {
    id: NodeId(22),
    height: 3,
};

static CASES: [Case; 6] = [
    Case {
        one: &[],
        two: &[],
        answer: Ok(0),
    },
    Case {
        one: &[23],
        two: &[24],
        answer: Ok(2),
    },
    Case {
        one: &[23],
        two: &[23],
        answer: Err(JoinFault::Meet { node: NodeId(23) }),
    },
    Case {
        one: &[23, 22, 25],
        two: &[24, 26, 21],
        answer: Ok(6),
    },
    Case {
        one: &[26, 23, 22],
        two: &[24, 26, 23],
        answer: Err(JoinFault::Meet { node: NodeId(23) }),
    },
    Case {
        one: &[9_223_372_036_854_775_808],
        two: &[24, 9_223_372_036_854_775_808],
        answer: Err(JoinFault::Meet {
            node: NodeId(9_223_372_036_854_775_808),
        }),
    },
];

// A data block of this number.
fn cell(alloc: Global, id: u64) -> Result<Arc<Cell>, Fail> {
    let lo = Key::body(41, 0, Oid(42), 0);
    let hi = Key::body(41, 0, Oid(42), 4096);
    let Ok(cell) = read_cell(alloc, NodeId(id), 0, lo, hi, 64, Block::zeroed(alloc)?) else {
        return Err(Fail::from("a data block is refused"));
    };
    Ok(cell)
}

// A change that has these old cells and no new ones.
fn change(alloc: Global, ids: &[u64], root: Option<Root>) -> Result<Change, Fail> {
    let mut old = Vec::new(alloc);
    for id in ids {
        old.push(cell(alloc, *id)?)?;
    }
    Ok(Change {
        old: Cells::from_vec(old),
        new: Cells::new(alloc),
        root,
    })
}

// How many old cells two changes have together, the first of which changes the root.
fn joined(alloc: Global, case: &Case) -> Result<Result<usize, JoinFault>, Fail> {
    let one = change(alloc, case.one, Some(ROOT))?;
    let two = change(alloc, case.two, None)?;
    joined_both(alloc, &one, &two)
}

// The same of these two.
fn joined_both(
    alloc: Global,
    one: &Change,
    two: &Change,
) -> Result<Result<usize, JoinFault>, Fail> {
    match join(alloc, one, two) {
        Ok(change) if change.root == Some(ROOT) => Ok(Ok(change.old.as_slice().len())),
        Ok(_) => Err(Fail::from("the root is lost")),
        Err(fault) => Ok(Err(fault)),
    }
}

#[test]
fn changes_are_joined_or_meet(rt: HostRuntime) -> Result<(), Fail> {
    for (row, case) in CASES.iter().enumerate() {
        same_in(&rt, &joined(rt.alloc(), case)?, &case.answer, row);
    }
    Ok(())
}

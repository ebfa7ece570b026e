//! What is made of a twig that grows, and whether that will do.

use crate::cells::{LOW, MOST, ROOT, two_levels};
use r4_allowed::{Allowance, allowances, is_allowed, most_new};
use r4_cell::Cell;
use std::alloc::Global;
use std::process::Abort;
use std::sync::Arc;
use std::test::Fail;

// An entry of the twig.
fn low(most: u64) -> Allowance {
    Allowance {
        level: 2,
        id: LOW,
        most,
    }
}

// An entry of the root.
fn high(most: u64) -> Allowance {
    Allowance {
        level: ROOT.height,
        id: ROOT.id,
        most,
    }
}

// Ends the test unless this is made of cells whose twig has so many: what the root gets, whether the
// table will do, and how many cells there may be.
fn made<X: Abort>(
    rt: &X,
    alloc: Global,
    cells: &[Arc<Cell>],
    most: u64,
    wanted: (u64, bool, u64),
) -> Result<(), Fail> {
    let table = allowances(alloc, &ROOT, cells, &[(LOW, most)])?;
    let entries = [low(most), high(wanted.0)];
    assert!(rt; table.as_slice() == &entries[..], "what is made of {most}");
    assert_eq!(rt;
        is_allowed(&ROOT, cells, table.as_slice()),
        wanted.1,
        "whether {most} may"
    );
    assert_eq!(rt;
        most_new(&ROOT, cells, table.as_slice()),
        Some(wanted.2),
        "with {most}"
    );
    Ok(())
}

#[test]
fn a_root_with_room_is_not_parted(rt: HostRuntime) -> Result<(), Fail> {
    let cells = two_levels(rt.alloc(), 3)?;
    made(&rt, rt.alloc(), cells.as_slice(), 2, (0, true, 4))
}

#[test]
fn a_full_root_is_parted_as_often_as_its_bytes_need(rt: HostRuntime) -> Result<(), Fail> {
    let cells = two_levels(rt.alloc(), MOST)?;
    made(&rt, rt.alloc(), cells.as_slice(), 22, (1, true, 26))?;
    made(&rt, rt.alloc(), cells.as_slice(), 23, (2, true, 28))
}

#[test]
fn more_than_87_may_not_come(rt: HostRuntime) -> Result<(), Fail> {
    let cells = two_levels(rt.alloc(), 3)?;
    made(&rt, rt.alloc(), cells.as_slice(), 87, (1, true, 91))?;
    made(&rt, rt.alloc(), cells.as_slice(), 88, (1, false, 92))
}

#[test]
fn what_is_not_named_from_among_the_cells_may_not_grow(rt: HostRuntime) -> Result<(), Fail> {
    let cells = two_levels(rt.alloc(), 3)?;
    let Some((_, upper)) = cells.as_slice().split_first() else {
        return Err(Fail::from("there is no cell"));
    };
    assert!(rt;
        !is_allowed(&ROOT, upper, &[low(1)]),
        "the twig is not there"
    );
    assert!(rt;
        is_allowed(&ROOT, upper, &[low(0), high(1)]),
        "the root alone"
    );
    Ok(())
}

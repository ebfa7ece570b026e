//! The cells of a task, looked for by their keys before any is changed.

use r4_base::Key;
use r4_build_testing::{FILE_STAT, fresh_cells};
use r4_cell::{Cell, least, top};
use r4_work::WorkingSet;
use std::alloc::Global;
use std::sync::Arc;
use std::test::Fail;

// The numbers of cells.
fn numbers(alloc: Global, cells: &[Arc<Cell>]) -> Result<Vec<u64>, Fail> {
    let mut numbers = Vec::new(alloc);
    for cell in cells {
        numbers.push(cell.id().0)?;
    }
    Ok(numbers)
}

// Whether the path to a key has cells of these numbers.
fn is_path(alloc: Global, set: &WorkingSet, key: &Key, wanted: &[u64]) -> Result<bool, Fail> {
    let path = set.path(alloc, key)?;
    let numbers = numbers(alloc, path.as_slice())?;
    Ok(numbers.as_slice() == wanted)
}

// The number of the leaf that has a key.
fn leaf_of(set: &WorkingSet, key: &Key) -> Option<u64> {
    match set.leaf_at(key) {
        Some(leaf) => Some(leaf.id().0),
        None => None,
    }
}

#[test]
fn cells_are_found_by_their_keys(rt: HostRuntime) -> Result<(), Fail> {
    let alloc = rt.alloc();
    let cells = fresh_cells(alloc)?;
    let set = WorkingSet::new(alloc, cells.as_slice())?;
    for key in [least(), FILE_STAT] {
        assert!(rt; is_path(alloc, &set, &key, &[22, 23])?);
        assert_eq!(rt; leaf_of(&set, &key), Some(23));
    }
    assert!(rt; is_path(alloc, &set, &top(), &[])?);
    assert_eq!(rt; leaf_of(&set, &top()), None);
    let change = set.into_change();
    assert!(rt; change.old.as_slice().is_empty() && change.new.as_slice().is_empty());
    Ok(())
}

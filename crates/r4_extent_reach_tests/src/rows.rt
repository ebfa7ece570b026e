//! Rows of commands in trees, with what they reach.

ghost use Rattle.r4_content.specs.Fields.{HasBytePaths};

use r4_buffer::{Buffer, Reading};
use r4_cell::{Cell, Root};
use r4_content::Command;
use r4_extent_reach::reach;
use r4_outside::{Device, MemoryDevice};
use r4_reach_testing::{Found, Reached, Row};
use r4_tree_testing::{BLOCKS, Bodies, Counting, NEXT, command, volume};
use std::alloc::{AllocError, Global};
use std::process::Abort;
use std::sync::Arc;
use std::test::Fail;

/// Ends the test unless the command of each row reaches just this in trees of these heights, and no block is read twice
/// for it.
pub fn all_reach<X: Abort>(
    rt: &X,
    alloc: Global,
    bodies: Bodies,
    heights: &[u8],
    rows: &[Row],
) -> Result<(), Fail> {
    for height in heights {
        let tree = volume(alloc, bodies, *height)?;
        reach_in(rt, alloc, tree, rows)?;
    }
    Ok(())
}

/// The same in a tree.
pub fn reach_in<X: Abort>(
    rt: &X,
    alloc: Global,
    tree: (MemoryDevice, Root),
    rows: &[Row],
) -> Result<(), Fail> {
    let (device, root) = tree;
    let mut dev = Counting::new(alloc, device);
    for row in rows {
        reaches(rt, alloc, &mut dev, root, row)?;
    }
    Ok(())
}

// A row is so, in a tree on a device that counts.
fn reaches<X: Abort>(
    rt: &X,
    alloc: Global,
    dev: &mut Counting,
    root: Root,
    row: &Row,
) -> Result<(), Fail> {
    let command = command(alloc, row.0, NEXT)?;
    let found = found(alloc, dev, root, &command);
    tells(rt, alloc, found, row.1)?;
    assert_eq!(rt; dev.again, 0);
    Ok(())
}

// What is found is told by these words.
fn tells<X: Abort>(
    rt: &X,
    alloc: Global,
    found: Result<Found, Fail>,
    words: &str,
) -> Result<(), Fail> {
    let told = found?.words(alloc)?;
    assert_eq!(rt; told.as_str(), words);
    Ok(())
}

// What a command reaches in a tree on a device, which notes what is read from then on.
fn found(alloc: Global, dev: &mut Counting, root: Root, command: &Command) -> Result<Found, Fail>
    requires { HasBytePaths command.now }
{
    dev.reads.clear();
    dev.again = 0;
    if dev.blocks()? != BLOCKS || root.id.0 >= BLOCKS || root.height < 2 {
        return Err(Fail::from("the root is not on the device"));
    }
    let buffer = Buffer::new(alloc);
    let pool = Reading::new(dev, &buffer, root, BLOCKS);
    let (pool, found) = reach(alloc, pool, &root, command);
    let _ = pool.into_device();
    match found {
        Ok(reach) => Ok(Found::Reached(Reached {
            reads: numbers(alloc, reach.reads.as_slice())?,
            writes: numbers(alloc, reach.writes.as_slice())?,
            met: numbers(alloc, reach.met.as_slice())?,
            rises: reach.root.is_some(),
            most: reach.most,
        })),
        Err(fault) => Ok(Found::Fault(fault)),
    }
}

// The numbers of cells, in their order.
fn numbers(alloc: Global, cells: &[Arc<Cell>]) -> Result<Vec<u64>, AllocError> {
    let mut numbers = Vec::new(alloc);
    for cell in cells {
        numbers.push(cell.id().0)?;
    }
    Ok(numbers)
}

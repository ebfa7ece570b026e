//! A small volume whose leaf has room for edits, or is parted, or may not be.

ghost use Rattle.std.specs.Prelude.{◌≡◌, IfOk};
ghost use Rattle.r4_content.specs.Held.{edits_of};
ghost use Rattle.r4_build_testing.specs.Commands.{mixed};
ghost use Rattle.r4_build_testing.specs.Small.{IsSmall};

use r4_base::NodeId;
use r4_build::WorkingSet;
use r4_build_testing::{ROOT, byte, fresh_cells, mixed_edits, with_change};
use r4_cell::{Cells, Change, Fresh, Root, least, read_cell, top};
use r4_content::Edits;
use r4_leaf_steps::edit_each;
use r4_tree_testing::{node, stat, tail};
use std::alloc::Global;
use std::test::Fail;

// The first of the numbers for new cells.
const FIRST: u64 = 9_223_372_036_854_775_808;

// The volume's root.
const TWIG: Root = Root {
    id: NodeId(22),
    height: 2,
};

// The cells of a small volume, whose leaf has the root's attributes and so many bytes of the file.
fn cells_with(alloc: Global, count: u16) -> Result<Cells, Fail>
    ensures { IfOk result IsSmall }
{
    let fresh = fresh_cells(alloc)?;
    let mut items = Vec::new(alloc);
    items.push(stat(alloc, least(), &ROOT)?)?;
    items.push(tail(alloc, byte(0), count, b'x')?)?;
    let block = node(alloc, 1, items.as_slice())?;
    let Ok(leaf) = read_cell(alloc, NodeId(23), 1, least(), top(), 64, block) else {
        return Err(Fail::from("the leaf is refused"));
    };
    let mut new = Vec::new(alloc);
    new.push(leaf)?;
    let change = Change {
        old: Cells::new(alloc),
        new: Cells::from_vec(new),
        root: None,
    };
    with_change(alloc, &fresh, &change)
}

// The change of the cells by these edits, with so many numbers; None where it may not be made.
fn edited(alloc: Global, cells: &Cells, edits: &Edits, numbers: u8) -> Result<Option<Change>, Fail>
    requires small { IsSmall cells.now }
    requires mixed { edits_of edits.now ≡ mixed }
{
    let mut set = WorkingSet::new(alloc, cells.as_slice())?;
    let mut fresh = Fresh {
        next: FIRST,
        end: FIRST + u64::from(numbers),
    };
    let cells = cells.as_slice();
    match edit_each(alloc, &mut set, &TWIG, cells, edits, &mut fresh) {
        Ok(()) => Ok(Some(set.into_change())),
        Err(_) => Ok(None),
    }
}

// The new cells, by their numbers, where a leaf with so many bytes of the file gets the edits.
fn new_cells(alloc: Global, count: u16, numbers: u8) -> Result<Option<Vec<u64>>, Fail> {
    let cells = cells_with(alloc, count)?;
    let edits = mixed_edits(alloc)?;
    let Some(change) = edited(alloc, &cells, &edits, numbers)? else {
        return Ok(None);
    };
    let mut ids = Vec::new(alloc);
    for cell in change.new.as_slice() {
        ids.push(cell.id().0)?;
    }
    Ok(Some(ids))
}

// With 100 bytes the leaf has room; with 3,940 it is parted, and the root gets a pointer: then a
// number is needed for the leaf, for the root and for the leaf that comes, and one is left over.
#[test]
fn full_leaves_are_parted(rt: HostRuntime) -> Result<(), Fail> {
    let alloc = rt.alloc();
    let wanted: [(u16, u8, Option<&[u64]>); 5] = [
        (100, 3, Some(&[23])),
        (100, 2, None),
        (3_940, 9, Some(&[23, FIRST, 22])),
        (3_940, 4, Some(&[23, FIRST, 22])),
        (3_940, 3, None),
    ];
    for (count, numbers, ids) in wanted {
        let found = new_cells(alloc, count, numbers)?;
        let found = found.as_ref().map(|ids| ids.as_slice());
        assert!(rt; found == ids, "{} bytes, {} numbers", count, numbers);
    }
    Ok(())
}

//! Which cells are named as others than they are.

use crate::cells::{Made, Place, cells};
use r4_base::{BlockNo, CellFault, Key, Oid};
use r4_cell::{least, top};
use r4_judging::{Misfit, misnamed};
use std::alloc::Global;
use std::process::Abort;
use std::test::Fail;

// The place of a twig of the whole range.
fn whole(id: u64, level: u8) -> Place {
    Place {
        id,
        level,
        lo: least(),
        hi: top(),
    }
}

// The key of a byte of object 65536.
fn byte(offset: u64) -> Key {
    Key::body(42, 0, Oid(65536), offset)
}

// Ends the test unless this is what is found among the cells.
fn found<X: Abort>(
    rt: &X,
    alloc: Global,
    made: &[Made],
    wanted: Option<Misfit>,
    what: &str,
) -> Result<(), Fail> {
    let cells = cells(alloc, made)?;
    let got = misnamed(alloc, cells.as_slice())?;
    assert_eq!(rt; got, wanted, "{what}");
    Ok(())
}

// A cell by its block and its first key, and why it is not the one that a name means.
fn misfit(block: u64, level: u8, lo: Key, fault: CellFault) -> Option<Misfit> {
    Some(Misfit {
        block: BlockNo(block),
        level,
        lo,
        fault,
    })
}

#[test]
fn a_block_that_is_only_named_is_not_judged(rt: HostRuntime) -> Result<(), Fail> {
    let to = [(least(), 40), (byte(0), 40)];
    let made = [
        Made::Branch(whole(22, 2), to),
        Made::Branch(whole(24, 3), to),
    ];
    found(&rt, rt.alloc(), &made, None, "only named")
}

#[test]
fn a_block_beside_a_run_is_not_judged(rt: HostRuntime) -> Result<(), Fail> {
    let made = [
        Made::Leaf(24, least(), byte(0)),
        Made::Leaf(27, byte(0), top()),
        Made::Twig(whole(22, 2), (least(), 40), (byte(0), 25, 2)),
    ];
    found(&rt, rt.alloc(), &made, None, "before and behind the run")
}

#[test]
fn a_leaf_that_is_named_twice_is_damage(rt: HostRuntime) -> Result<(), Fail> {
    let made = [
        Made::Leaf(23, least(), byte(0)),
        Made::Branch(whole(22, 2), [(least(), 23), (byte(0), 23)]),
    ];
    let range = CellFault::Range { item: 0 };
    let wanted = misfit(23, 1, least(), range);
    found(&rt, rt.alloc(), &made, wanted, "named twice")
}

#[test]
fn the_block_nearest_to_the_root_comes_first(rt: HostRuntime) -> Result<(), Fail> {
    let made = [
        Made::Leaf(23, least(), byte(0)),
        Made::Leaf(25, byte(0), top()),
        Made::Twig(whole(22, 2), (least(), 23), (byte(0), 25, 2)),
        Made::Branch(whole(24, 3), [(least(), 22), (byte(0), 40)]),
    ];
    let range = CellFault::Range { item: 0 };
    let twig = misfit(22, 2, least(), range);
    found(&rt, rt.alloc(), &made, twig, "the twig")?;
    let leaf = misfit(25, 1, byte(0), CellFault::Level);
    found(&rt, rt.alloc(), &made[..3], leaf, "the leaf in an extent")?;
    found(&rt, rt.alloc(), &made[..2], None, "leaves name nothing")
}

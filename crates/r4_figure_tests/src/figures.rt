//! Many atoms, and a large volume.

ghost use Rattle.std.specs.Prelude.{◌≡◌, [], IfOk, OnOk};

use crate::same::same;
use crate::spaces::read;
use r4_base::{AtomNo, Block, BlockNo};
use r4_space::SpaceMap;
use std::alloc::Global;
use std::process::Abort;
use std::test::Fail;

// Bitmap `n` of a new volume of 1,048,576 blocks.
fn bitmap(alloc: Global, n: u64) -> Result<Block, Fail> {
    let mut block = Block::zeroed(alloc)?;
    for (i, byte) in block.bytes_mut().iter_mut().enumerate() {
        if i == 4 {
            *byte = 1;
        }
        if (n == 0 && (4..7).contains(&i)) || (n == 32 && i >= 132) {
            *byte = 0xff;
        }
    }
    Ok(block)
}

// A new volume of 1,048,576 blocks.
fn large(rt: &impl Abort, alloc: Global) -> Result<SpaceMap, Fail>
    ensures { IfOk result (λ s. s.sealed ≡ []) }
{
    let mut bitmaps = Vec::new(alloc);
    for n in 0..33u64 {
        bitmaps.push(bitmap(alloc, n)?)?;
    }
    read(rt, alloc, &bitmaps, 1_048_576, 1_048_520).map_err(|_| Fail::from("no space"))
}

// Charges 10,000 atoms so many cells each, one of them without a block.
fn charge_all(alloc: Global, space: &mut SpaceMap, cells: u32) -> Result<(), Fail>
    requires { space.old.sealed ≡ [] }
    ensures { OnOk result (space.new.sealed ≡ []) }
{
    for atom in 1..10_001u32 {
        space.room(alloc, 1)?;
        if space.charge(AtomNo(atom), u64::from(cells), 1).is_err() {
            return Err(Fail::from("a charge is refused"));
        }
    }
    Ok(())
}

// Charges the atoms of a large volume twice.
fn charge_twice<X: Abort>(rt: &X, alloc: Global, space: &mut SpaceMap) -> Result<(), Fail>
    requires { space.old.sealed ≡ [] }
{
    charge_all(alloc, space, 1)?;
    same(rt, &space.free(), &668_520, "one cell each");
    charge_all(alloc, space, 2)?;
    same(rt, &space.free(), &658_520, "two cells each");
    Ok(())
}

#[test]
fn ten_thousand_atoms_are_charged(rt: HostRuntime) -> Result<(), Fail> {
    let mut space = large(&rt, rt.alloc())?;
    charge_twice(&rt, rt.alloc(), &mut space)
}

// Places 30,000 blocks from block 22 on.
fn place_all(space: &mut SpaceMap) {
    for _ in 0..30_000u64 {
        let _ = space.place(BlockNo(22));
    }
}

// Places the blocks on a large volume, for an atom that is settled then.
fn place_and_settle<X: Abort>(rt: &X, space: &mut SpaceMap) {
    place_all(space);
    same(rt, &space.free(), &1_018_520, "placed");
    space.settle(AtomNo(1));
    same(rt, &space.free(), &1_018_520, "settled");
}

#[test]
fn thirty_thousand_blocks_are_placed(rt: HostRuntime) -> Result<(), Fail> {
    let mut space = large(&rt, rt.alloc())?;
    place_and_settle(&rt, &mut space);
    same(&rt, &space.is_used(BlockNo(30_023)), &true, "the last one");
    Ok(())
}

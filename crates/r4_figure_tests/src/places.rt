//! Which blocks the cells of a slum get.

ghost use Rattle.std.specs.Prelude.{◌≡◌, ◌^◌, ◌<◌, IfOk, length, map, All};
ghost use Rattle.std.specs.Arc.{arc_value};

use crate::same::{same, same_in};
use crate::spaces::read;
use r4_base::{AtomNo, Block, BlockNo, Key, NodeId, Oid};
use r4_cell::{Cell, read_cell};
use r4_place::{How, Placed, choose};
use r4_space::SpaceMap;
use std::alloc::Global;
use std::process::Abort;
use std::sync::Arc;
use std::test::Fail;

// A bitmap of 64 blocks: the first 24 are used, and of the others those that these bytes tell.
fn bitmap(alloc: Global, told: [u8; 5]) -> Result<Block, Fail> {
    let mut block = Block::zeroed(alloc)?;
    for (i, byte) in block.bytes_mut().iter_mut().enumerate() {
        if (4..7).contains(&i) || i >= 12 {
            *byte = 0xff;
        }
        if (7..12).contains(&i) {
            *byte = told[i - 7];
        }
    }
    Ok(block)
}

// The space of 64 blocks of which these are used.
fn space(rt: &impl Abort, alloc: Global, told: [u8; 5], free: u64) -> Result<SpaceMap, Fail>
    ensures { IfOk result (λ s. s.block_count ≡ 64) }
{
    let mut bitmaps = Vec::new(alloc);
    bitmaps.push(bitmap(alloc, told)?)?;
    read(rt, alloc, &bitmaps, 64, free).map_err(|_| Fail::from("a space is refused"))
}

// A data block of this name.
fn cell(alloc: Global, id: u64) -> Result<Arc<Cell>, Fail>
    ensures { IfOk result (λ c. (arc_value c).id ≡ id) }
{
    let lo = Key::body(41, 0, Oid(42), 0);
    let hi = Key::body(41, 0, Oid(42), 4096);
    let Ok(cell) = read_cell(alloc, NodeId(id), 0, lo, hi, 64, Block::zeroed(alloc)?) else {
        return Err(Fail::from("a data block is refused"));
    };
    Ok(cell)
}

const NEW: u64 = 0x8000_0000_0000_0000;

// Two cells without a block, a third one of this name, and one more without.
fn slum(alloc: Global, third: u64) -> Result<Vec<Arc<Cell>>, Fail>
    requires within { third < 2 ^ 63 → third < 64 }
    ensures within { IfOk result (λ v. All (λ c. c.id < 2 ^ 63 → c.id < 64) (map (λ cell. arc_value cell) v.items)) }
    ensures four { IfOk result (λ v. length v.items ≡ 4) }
{
    let one = cell(alloc, NEW)?;
    let two = cell(alloc, NEW + 1)?;
    let three = cell(alloc, third)?;
    let four = cell(alloc, NEW + 2)?;
    Ok(Vec::from_array(alloc, [one, two, three, four])?)
}

// Compares what is done with the cells of a slum, one by one.
fn same_placed<X: Abort>(rt: &X, placed: &[Placed], slum: &[Arc<Cell>], wanted: &[How]) {
    same(rt, &placed.len(), &wanted.len(), "cells");
    for (row, (got, how)) in placed.iter().zip(wanted).enumerate() {
        same_in(rt, &got.how, how, row);
    }
    for (row, (got, cell)) in placed.iter().zip(slum).enumerate() {
        same_in(rt, &got.node, &cell.id(), row);
    }
}

// Looks at what is done with the cells of a slum, and at how many blocks are free afterwards.
fn look<X: Abort>(
    rt: &X,
    alloc: Global,
    space: &mut SpaceMap,
    slum: &[Arc<Cell>],
    wanted: &[How],
    free: u64,
) -> Result<(), Fail>
    requires within { All (λ c. c.id < 2 ^ 63 → c.id < space.old.block_count) (map (λ cell. arc_value cell) slum.now) }
{
    assert!(rt; space.free() >= slum.len() as u64);
    let placed = choose(alloc, AtomNo(1), slum, 64, true, space)?;
    same_placed(rt, &placed, slum, wanted);
    same(rt, &space.free(), &free, "free blocks");
    Ok(())
}

// The same of two cells without a block, a third one of this name, and one more without, in a space of 64 blocks.
fn look_of_four<X: Abort>(
    rt: &X,
    alloc: Global,
    space: &mut SpaceMap,
    third: u64,
    wanted: &[How],
    free: u64,
) -> Result<(), Fail>
    requires blocks { space.old.block_count ≡ 64 }
    requires within { third < 2 ^ 63 → third < 64 }
{
    let cells = slum(alloc, third)?;
    look(rt, alloc, space, &cells, wanted, free)
}

// The same in a space of 64 blocks of which these are used: the space then.
fn look_at<X: Abort>(
    rt: &X,
    alloc: Global,
    told: [u8; 5],
    third: u64,
    wanted: &[How],
    free: [u64; 2],
) -> Result<SpaceMap, Fail>
    requires within { third < 2 ^ 63 → third < 64 }
{
    let mut space = space(rt, alloc, told, free[0])?;
    look_of_four(rt, alloc, &mut space, third, wanted, free[1])?;
    Ok(space)
}

#[test]
fn cells_without_a_block_get_the_next_ones(rt: HostRuntime) -> Result<(), Fail> {
    let wanted = [
        How::Fresh(BlockNo(24)),
        How::Fresh(BlockNo(25)),
        How::Overwrite,
        How::Fresh(BlockNo(27)),
    ];
    let _space = look_at(&rt, rt.alloc(), [4, 0, 0, 0, 0], 23, &wanted, [39, 36])?;
    Ok(())
}

#[test]
fn the_last_blocks_are_enough(rt: HostRuntime) -> Result<(), Fail> {
    let wanted = [
        How::Fresh(BlockNo(24)),
        How::Fresh(BlockNo(27)),
        How::Fresh(BlockNo(62)),
        How::Fresh(BlockNo(63)),
    ];
    let told = [0xf6, 0xff, 0xff, 0xff, 0x3f];
    let mut full = look_at(&rt, rt.alloc(), told, NEW + 3, &wanted, [4, 0])?;

    // Nothing is left, and nothing is wanted.
    look(&rt, rt.alloc(), &mut full, &[], &[], 0)
}

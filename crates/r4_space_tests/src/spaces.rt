//! The space of new volumes of 64 and of 32,737 blocks.

ghost use Rattle.std.specs.Prelude.{◌≡◌, ◌≤◌, [], IfOk, OnOk};

use crate::same::{same, same_in};
use r4_base::{AtomNo, Block, BlockNo};
use r4_space::{Short, SpaceFault, SpaceMap, price};
use std::alloc::Global;
use std::process::Abort;
use std::test::Fail;

// A bitmap whose first 24 bits are 1, and those of its bytes from `used` on.
fn bitmap(alloc: Global, used: usize) -> Result<Block, Fail>
    requires { used ≤ 4096 }
{
    let mut block = Block::zeroed(alloc)?;
    block.part_mut(4, 7).fill(0xff);
    block.part_mut(used, 4096).fill(0xff);
    Ok(block)
}

// The bitmaps of a new volume of 64 or of 32,737 blocks.
fn bitmaps(alloc: Global, blocks: u64) -> Result<Vec<Block>, Fail> {
    let mut bitmaps = Vec::new(alloc);
    if blocks == 64 {
        bitmaps.push(bitmap(alloc, 12)?)?;
    } else {
        bitmaps.push(bitmap(alloc, 4096)?)?;
        bitmaps.push(bitmap(alloc, 4)?)?;
    }
    Ok(bitmaps)
}

// The space that these bitmaps tell.
pub fn read(
    rt: &impl Abort,
    alloc: Global,
    bitmaps: &[Block],
    blocks: u64,
    free: u64,
) -> Result<SpaceMap, SpaceFault>
    ensures open { IfOk result (λ s. s.sealed ≡ []) }
    ensures size { IfOk result (λ s. 64 ≤ s.block_count) }
{
    assert!(rt; blocks >= 64 && blocks <= 1_048_576);
    assert_eq!(rt; bitmaps.len() as u64, (blocks + 32_735) / 32_736);
    SpaceMap::read(alloc, bitmaps, blocks, free)
}

// The space of a new volume.
fn space_of(rt: &impl Abort, alloc: Global, blocks: u64, free: u64) -> Result<SpaceMap, Fail>
    ensures open { IfOk result (λ s. s.sealed ≡ []) }
    ensures size { IfOk result (λ s. 64 ≤ s.block_count) }
{
    let bitmaps = bitmaps(alloc, blocks)?;
    match read(rt, alloc, &bitmaps, blocks, free) {
        Ok(space) => Ok(space),
        Err(_) => Err(Fail::from("no space")),
    }
}

// The blocks, the byte that is made 0 in the last bitmap, how many blocks are free, and the bitmap that is at fault.
static BITMAPS: [(u64, usize, u64, Option<u64>); 8] = [
    (64, 4096, 40, None),
    (64, 4096, 41, Some(18)),
    (64, 4, 48, Some(18)),
    (64, 4095, 48, Some(18)),
    (32_737, 4096, 32_712, None),
    (32_737, 4096, 32_713, Some(18)),
    (32_737, 4, 32_720, Some(32_736)),
    (32_737, 4095, 32_720, Some(32_736)),
];

// The bitmaps of a new volume, with a 0 for this byte of the last one.
fn cleared(alloc: Global, blocks: u64, cleared: usize) -> Result<Vec<Block>, Fail> {
    let mut bitmaps = bitmaps(alloc, blocks)?;
    if let Some(last) = bitmaps.last_mut() {
        if let Some(byte) = last.bytes_mut().get_mut(cleared) {
            *byte = 0;
        }
    }
    Ok(bitmaps)
}

#[test]
fn the_bitmaps_are_read(rt: HostRuntime) -> Result<(), Fail> {
    let alloc = rt.alloc();
    for (row, &(blocks, at, free, fault)) in BITMAPS.iter().enumerate() {
        let bitmaps = cleared(alloc, blocks, at)?;
        let found = read(&rt, alloc, &bitmaps, blocks, free).err();
        let wanted = fault.map(|block| SpaceFault::Bitmap {
            block: BlockNo(block),
        });
        same_in(&rt, &found, &wanted, row);
    }
    Ok(())
}

// How many cells and bitmaps, and the price.
static PRICES: [(u64, u64, u64); 10] = [
    (0, 1, 0),
    (1, 1, 5),
    (2, 1, 6),
    (7, 1, 11),
    (17, 1, 21),
    (22, 1, 26),
    (130, 1, 134),
    (252, 1, 256),
    (253, 1, 258),
    (1, 33, 37),
];

#[test]
fn prices_are_the_formula(rt: HostRuntime) -> Result<(), Fail> {
    for (row, &(cells, bitmaps, blocks)) in PRICES.iter().enumerate() {
        same_in(&rt, &price(cells, bitmaps), &blocks, row);
    }
    Ok(())
}

// Charges an atom, and gives what is short.
pub fn charge(
    alloc: Global,
    space: &mut SpaceMap,
    atom: u32,
    cells: u32,
    fresh: u32,
) -> Result<Option<Short>, Fail>
    requires { space.old.sealed ≡ [] }
    ensures open { space.new.sealed ≡ [] }
    ensures size { space.new.block_count ≡ space.old.block_count }
{
    space.room(alloc, 1)?;
    Ok(
        space
            .charge(AtomNo(atom), u64::from(cells), u64::from(fresh))
            .err(),
    )
}

// Places a block.
pub fn place(space: &mut SpaceMap, near: u64) -> Option<u64>
    ensures open { space.new.sealed ≡ space.old.sealed }
    ensures size { space.new.block_count ≡ space.old.block_count }
{
    space.place(BlockNo(near)).map(|b| b.0)
}

// Holds a block.
fn hold(alloc: Global, space: &mut SpaceMap, atom: u32, near: u64) -> Result<Option<u64>, Fail>
    ensures open { space.new.sealed ≡ space.old.sealed }
    ensures size { space.new.block_count ≡ space.old.block_count }
{
    space.room(alloc, 1)?;
    Ok(space.hold(AtomNo(atom), BlockNo(near)).map(|b| b.0))
}

// Defers a block.
fn defer(alloc: Global, space: &mut SpaceMap, atom: u32, block: u8) -> Result<(), Fail>
    requires { 64 ≤ space.old.block_count }
    ensures open { space.new.sealed ≡ space.old.sealed }
    ensures size { space.new.block_count ≡ space.old.block_count }
{
    space.room(alloc, 1)?;
    if block < 64 {
        space.defer(AtomNo(atom), BlockNo(u64::from(block)));
    }
    Ok(())
}

// Merges the second atom into the first.
fn merge(space: &mut SpaceMap)
    requires { space.old.sealed ≡ [] }
    ensures { space.new.sealed ≡ [] }
{
    space.merge(AtomNo(1), AtomNo(2));
}

// Seals an atom and settles it.
fn finish(space: &mut SpaceMap, atom: u32)
    requires { space.old.sealed ≡ [] }
    ensures open { space.new.sealed ≡ [] }
    ensures size { space.new.block_count ≡ space.old.block_count }
{
    space.seal(AtomNo(atom));
    space.settle(AtomNo(atom));
}

// Places so many blocks, and finishes the atom.
fn finish_placed(space: &mut SpaceMap, blocks: u64)
    requires { space.old.sealed ≡ [] }
    ensures open { space.new.sealed ≡ [] }
    ensures size { space.new.block_count ≡ space.old.block_count }
{
    for _ in 0..blocks {
        place(space, 22);
    }
    finish(space, 1);
}

// Defers some blocks, and finishes the atom.
fn finish_freed(alloc: Global, space: &mut SpaceMap, blocks: &[u8]) -> Result<(), Fail>
    requires open { space.old.sealed ≡ [] }
    requires size { 64 ≤ space.old.block_count }
    ensures { OnOk result (space.new.sealed ≡ []) }
{
    for &block in blocks {
        defer(alloc, space, 1, block)?;
    }
    hold(alloc, space, 1, 22)?;
    finish(space, 1);
    Ok(())
}

// A first atom is charged three times and places five cells: what is short, and what is free before and after.
fn place_five(alloc: Global, space: &mut SpaceMap) -> Result<([Option<Short>; 3], [u64; 2]), Fail>
    requires { space.old.sealed ≡ [] }
    ensures open { OnOk result (space.new.sealed ≡ []) }
    ensures size { OnOk result (space.new.block_count ≡ space.old.block_count) }
{
    let little = charge(alloc, space, 1, 1, 0)?;
    let much = charge(alloc, space, 1, 130, 128)?;
    let more = charge(alloc, space, 1, 7, 5)?;
    let before = space.free();
    finish_placed(space, 5);
    Ok(([little, much, more], [before, space.free()]))
}

// It is charged twice, and frees the five cells: what is short, and what is free then.
fn free_five(alloc: Global, space: &mut SpaceMap) -> Result<([Option<Short>; 2], u64), Fail>
    requires open { space.old.sealed ≡ [] }
    requires size { 64 ≤ space.old.block_count }
    ensures { OnOk result (space.new.sealed ≡ []) }
{
    let much = charge(alloc, space, 1, 22, 20)?;
    let little = charge(alloc, space, 1, 2, 0)?;
    finish_freed(alloc, space, &[24, 25, 26, 27, 28])?;
    Ok(([much, little], space.free()))
}

// Two atoms are charged and become one, which is charged once more: what is short, and what is free after each.
fn charge_both(alloc: Global, space: &mut SpaceMap) -> Result<([Option<Short>; 3], [u64; 3]), Fail>
    requires { space.old.sealed ≡ [] }
{
    let first = charge(alloc, space, 1, 1, 0)?;
    let second = charge(alloc, space, 2, 2, 0)?;
    let apart = space.free();
    merge(space);
    let merged = space.free();
    let third = charge(alloc, space, 1, 17, 15)?;
    Ok(([first, second, third], [apart, merged, space.free()]))
}

// Looks at what a first atom is short of, and at what is free.
fn five_are_placed(rt: &impl Abort, alloc: Global, space: &mut SpaceMap) -> Result<(), Fail>
    requires { space.old.sealed ≡ [] }
    ensures open { OnOk result (space.new.sealed ≡ []) }
    ensures size { OnOk result (space.new.block_count ≡ space.old.block_count) }
{
    let placed = place_five(alloc, space)?;
    let much = Some(Short {
        need: 257,
        free: 35,
    });
    same(rt, &placed, &([None, much, None], [24, 35]), "placed");
    Ok(())
}

// Looks at what it is short of then, and at what is free.
fn five_are_freed(rt: &impl Abort, alloc: Global, space: &mut SpaceMap) -> Result<(), Fail>
    requires open { space.old.sealed ≡ [] }
    requires size { 64 ≤ space.old.block_count }
    ensures { OnOk result (space.new.sealed ≡ []) }
{
    let freed = free_five(alloc, space)?;
    let again = Some(Short { need: 46, free: 35 });
    same(rt, &freed, &([again, None], 40), "freed");
    Ok(())
}

// Looks at what two atoms are short of, and at what is free.
fn both_are_charged(rt: &impl Abort, alloc: Global, space: &mut SpaceMap) -> Result<(), Fail>
    requires { space.old.sealed ≡ [] }
{
    let both = charge_both(alloc, space)?;
    same(rt, &both, &([None; 3], [29, 33, 4]), "both");
    Ok(())
}

// Charges atoms of a space of which 40 blocks are free.
fn is_charged(rt: &impl Abort, alloc: Global, space: &mut SpaceMap) -> Result<(), Fail>
    requires open { space.old.sealed ≡ [] }
    requires size { 64 ≤ space.old.block_count }
{
    five_are_placed(rt, alloc, space)?;
    five_are_freed(rt, alloc, space)?;
    both_are_charged(rt, alloc, space)
}

#[test]
fn a_full_volume_is_charged(rt: HostRuntime) -> Result<(), Fail> {
    let mut space = space_of(&rt, rt.alloc(), 64, 40)?;
    is_charged(&rt, rt.alloc(), &mut space)
}

// The bits of blocks 24 to 31, as the commit of an atom leaves them.
fn written(alloc: Global, space: &SpaceMap, atom: u32) -> Result<u8, Fail>
    requires { 64 ≤ space.now.block_count }
{
    let mut block = Block::zeroed(alloc)?;
    space.bitmap(0, AtomNo(atom), &mut block);
    Ok(block.bytes()[7])
}

// Places a block near each of these.
fn place_near(space: &mut SpaceMap, nears: &[u64; 5]) -> [Option<u64>; 5]
    ensures { space.new.block_count ≡ space.old.block_count }
{
    let mut placed = [None; 5];
    for (block, &near) in placed.iter_mut().zip(nears) {
        *block = place(space, near);
    }
    placed
}

// Seals two atoms.
fn seal_both(space: &mut SpaceMap)
    ensures { space.new.block_count ≡ space.old.block_count }
{
    space.seal(AtomNo(1));
    space.seal(AtomNo(2));
}

// Two atoms free blocks 24 and 25, the first of them holds a block, and both are sealed: that block, and the bits that each
// writes.
fn free_two(alloc: Global, space: &mut SpaceMap) -> Result<(Option<u64>, [u8; 2]), Fail>
    requires { 64 ≤ space.old.block_count }
{
    defer(alloc, space, 1, 24)?;
    defer(alloc, space, 2, 25)?;
    let held = hold(alloc, space, 1, 24)?;
    seal_both(space);
    let first = written(alloc, space, 1)?;
    let second = written(alloc, space, 2)?;
    Ok((held, [first, second]))
}

// The first of them settles: which blocks are placed before and after.
fn settle_first(space: &mut SpaceMap) -> (Option<u64>, Option<u64>, Option<u64>) {
    let before = place(space, 24);
    space.settle(AtomNo(1));
    let given = place(space, 25);
    (before, given, place(space, 23))
}

// The second of them settles: which block is placed then, and how many are free.
fn settle_second(space: &mut SpaceMap) -> (Option<u64>, u64) {
    space.settle(AtomNo(2));
    (place(space, 25), space.free())
}

// The first of them settles, and in a copy the second: which blocks are placed before, between and after, and how many are
// free more in the copy.
fn settle_both(alloc: Global, space: &mut SpaceMap) -> Result<([Option<u64>; 4], u64), Fail> {
    let (before, given, freed) = settle_first(space);
    let mut copy = space.copy(alloc)?;
    let (last, free) = settle_second(&mut copy);
    Ok((
        [before, given, freed, last],
        free.wrapping_sub(space.free()),
    ))
}

// Looks at the places of two blocks from 24 on, of the last one, and of some behind it, and at what is free then.
fn around_are_placed(rt: &impl Abort, space: &mut SpaceMap, last: u64, free: u64)
    ensures { space.new.block_count ≡ space.old.block_count }
{
    let around = place_near(space, &[0, 24, last, last, u64::MAX]);
    let found = [Some(24), Some(25), Some(last), Some(26), Some(27)];
    same(rt, &around, &found, "around");
    same(rt, &space.free(), &free, "free behind them");
}

// Looks at the block that is held, and at the bits that each of two atoms writes.
fn two_are_freed(rt: &impl Abort, alloc: Global, space: &mut SpaceMap) -> Result<(), Fail>
    requires { 64 ≤ space.old.block_count }
{
    let freed = free_two(alloc, space)?;
    same(rt, &freed, &(Some(28), [0b1110, 0b1100]), "freed");
    Ok(())
}

// Looks at the blocks that are placed while both settle, and at what is free then.
fn both_settle(
    rt: &impl Abort,
    alloc: Global,
    space: &mut SpaceMap,
    free: u64,
) -> Result<(), Fail> {
    let settled = settle_both(alloc, space)?;
    let found = [Some(29), Some(28), Some(24), Some(25)];
    same(rt, &settled, &(found, 0), "settled");
    same(rt, &space.free(), &free, "free at the end");
    Ok(())
}

// Atoms of a space settle, of which so many blocks are free.
fn settle_each(
    rt: &impl Abort,
    alloc: Global,
    space: &mut SpaceMap,
    last: u64,
    free: u64,
) -> Result<(), Fail>
    requires { 64 ≤ space.old.block_count }
{
    around_are_placed(rt, space, last, free.wrapping_sub(5));
    space.settle(AtomNo(9));
    two_are_freed(rt, alloc, space)?;
    both_settle(rt, alloc, space, free.wrapping_sub(7))
}

// Atoms of a new volume settle, of which so many blocks are free.
fn settle_in_order(
    rt: &impl Abort,
    alloc: Global,
    blocks: u64,
    last: u64,
    free: u64,
) -> Result<(), Fail> {
    let mut space = space_of(rt, alloc, blocks, free)?;
    settle_each(rt, alloc, &mut space, last, free)
}

#[test]
fn atoms_settle_in_order(rt: HostRuntime) -> Result<(), Fail> {
    settle_in_order(&rt, rt.alloc(), 64, 63, 40)?;
    settle_in_order(&rt, rt.alloc(), 32_737, 32_735, 32_712)
}

// An atom defers block 30: what is free then.
fn defer_30(alloc: Global, space: &mut SpaceMap, atom: u32) -> Result<u64, Fail>
    requires { 64 ≤ space.old.block_count }
    ensures { OnOk result (space.new.block_count ≡ space.old.block_count) }
{
    defer(alloc, space, atom, 30)?;
    Ok(space.free())
}

// An atom settles: what is free then, and whether block 30 is used still.
fn settle_30(space: &mut SpaceMap, atom: u32) -> (u64, bool) {
    space.settle(AtomNo(atom));
    (space.free(), space.is_used(BlockNo(30)))
}

// Two atoms defer a block, and settle one after the other: what is free after each step, and whether the block is used still.
fn defer_twice(alloc: Global, space: &mut SpaceMap) -> Result<([u64; 4], [bool; 2]), Fail>
    requires { 64 ≤ space.old.block_count }
{
    let one = defer_30(alloc, space, 1)?;
    let two = defer_30(alloc, space, 2)?;
    let (again, is_deferred) = settle_30(space, 1);
    let (free, is_used) = settle_30(space, 2);
    Ok(([one, two, again, free], [is_deferred, is_used]))
}

// Looks at which of blocks 30, 23 and 64 are used.
fn are_used(rt: &impl Abort, space: &SpaceMap) {
    let unmarked = space.is_used(BlockNo(30));
    let marked = space.is_used(BlockNo(23));
    let outside = space.is_used(BlockNo(64));
    let found = [unmarked, marked, outside];
    same(rt, &found, &[false, true, false], "used");
}

// Looks at what is free while two atoms defer block 30.
fn is_deferred(rt: &impl Abort, alloc: Global, space: &mut SpaceMap) -> Result<(), Fail>
    requires { 64 ≤ space.old.block_count }
{
    are_used(rt, space);
    let deferred = defer_twice(alloc, space)?;
    let wanted = ([39, 39, 39, 40], [true, false]);
    same(rt, &deferred, &wanted, "deferred");
    Ok(())
}

#[test]
fn an_unmarked_block_is_deferred(rt: HostRuntime) -> Result<(), Fail> {
    let mut space = space_of(&rt, rt.alloc(), 64, 40)?;
    is_deferred(&rt, rt.alloc(), &mut space)
}

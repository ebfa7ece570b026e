//! Commits of atoms: an overwritten leaf, cells that get blocks, and 300 cells.

ghost use Rattle.std.specs.Prelude.{◌≡◌, map, IfOk, OnOk};
ghost use Rattle.std.specs.Arc.{arc_value};
ghost use Rattle.r4_outside.specs.Device.{Goes, TellsCrashes};
ghost use Rattle.r4_outside.specs.Memory.{memory_state};
ghost use Rattle.r4_commit_testing.specs.Cells.{HaveBlocks};

use crate::same::{same, same_in};
use r4_base::{AtomNo, BlockNo, NodeId};
use r4_cell::Cell;
use r4_commit_testing::{commit, data, leaf, number, read, replays, space_of, super_of, volume};
use r4_list::list;
use r4_outside::{Device, MemoryDevice, MemorySink};
use r4_place::{How, Placed};
use r4_space::SpaceMap;
use r4_testing::{REPLAY, call};
use std::alloc::Global;
use std::process::Abort;
use std::sync::Arc;
use std::test::Fail;

// What is printed of the root directory.
const BEFORE: &[u8] = b"d 0755 2 0 0 0 /\n";

const AFTER: &[u8] = b"d 0755 2 7 0 0 /\n";

// The texts after a crash at a moment: the header is written by call 7.
fn texts_at(moment: u64) -> [&'static [u8]; 2] {
    match moment {
        7 => [BEFORE, AFTER],
        0..=6 => [BEFORE, BEFORE],
        _ => [AFTER, AFTER],
    }
}

// What is left of a torn write: each bit is a sector.
const MASKS: [u8; 5] = [0, 1, 85, 254, 255];

// The texts after a crash within the call before a moment, of which these sectors are left: the header's first sector
// tells which log it is.
fn texts_torn(moment: u64, mask: u8) -> [&'static [u8]; 2] {
    if moment != 7 {
        return texts_at(moment);
    }
    let text = if mask & 1 == 1 { AFTER } else { BEFORE };
    [text, text]
}

// The number of the call before: what is undone is times 6364136223846793005, plus 1442695040888963407.
fn number_before(number: u64) -> u64 {
    let product = number.wrapping_sub(1_442_695_040_888_963_407);
    product.wrapping_mul(13_877_824_140_714_322_085)
}

// The pick with which these sectors are left of the write before a moment: the numbers of the calls are followed back.
fn pick_of(moment: u64, mask: u8) -> u64 {
    let mut number = u64::from(mask) << 56;
    for _ in 0..moment {
        number = number_before(number);
    }
    number
}

// Looks at what is printed of the root directory after a crash at a moment.
fn is_listed<X: Abort>(
    rt: &X,
    alloc: Global,
    left: &mut MemoryDevice,
    moment: u64,
    texts: &[&[u8]; 2],
) -> Result<(), Fail> {
    let mut out = MemorySink::new(alloc, 100)?;
    let got = list(alloc, left, b"/", &mut out);
    let row = moment as usize;
    same_in(rt, &got, &Ok(()), row);
    let told = texts.contains(&out.written());
    same_in(rt, &told, &true, row);
    Ok(())
}

// Looks at what a crash leaves, as it is, and after a replay.
fn is_whole<X: Abort>(
    rt: &X,
    alloc: Global,
    left: &mut MemoryDevice,
    moment: u64,
    texts: &[&[u8]; 2],
) -> Result<(), Fail> {
    is_listed(rt, alloc, left, moment, texts)?;
    let mut out = MemorySink::new(alloc, 100)?;
    let status = call(alloc, &REPLAY, left, &mut out)?;
    same_in(rt, &status, &0, moment as usize);
    is_listed(rt, alloc, left, moment, texts)
}

// Lets the machine stop at a moment, and looks at what this pick leaves.
fn look_at_crash<X: Abort>(
    rt: &X,
    alloc: Global,
    dev: &MemoryDevice,
    moment: u64,
    pick: u64,
    texts: &[&[u8]; 2],
) -> Result<(), Fail>
    requires { TellsCrashes (memory_state dev.now) }
{
    let mut left = dev.crash(alloc, moment, pick)?;
    is_whole(rt, alloc, &mut left, moment, texts)
}

// Lets the machine stop at each moment of the commit of the leaf.
fn look_at_crashes<X: Abort>(rt: &X, alloc: Global, dev: &MemoryDevice) -> Result<(), Fail>
    requires { TellsCrashes (memory_state dev.now) }
{
    for moment in 0..15 {
        let texts = texts_at(moment);
        look_at_crash(rt, alloc, dev, moment, 1, &texts)?;
        look_at_crash(rt, alloc, dev, moment, 2, &texts)?;
    }
    Ok(())
}

// Lets the machine stop within the call before a moment.
fn look_at_torn_write<X: Abort>(
    rt: &X,
    alloc: Global,
    dev: &MemoryDevice,
    moment: u64,
) -> Result<(), Fail>
    requires { TellsCrashes (memory_state dev.now) }
{
    for mask in MASKS {
        let pick = pick_of(moment, mask);
        look_at_crash(rt, alloc, dev, moment, pick, &texts_torn(moment, mask))?;
    }
    Ok(())
}

// Lets the machine stop within each call of the commit of the leaf.
fn look_at_torn_writes<X: Abort>(rt: &X, alloc: Global, dev: &MemoryDevice) -> Result<(), Fail>
    requires { TellsCrashes (memory_state dev.now) }
{
    for moment in 1..15 {
        look_at_torn_write(rt, alloc, dev, moment)?;
    }
    Ok(())
}

// Where what number stands after the commit of the leaf: the log's blocks are 24 to 28, the head's the last.
const NUMBERS: [(u64, usize, u64); 10] = [
    (19, 0, 28),
    (20, 0, 28),
    (20, 8, 40),
    (28, 8, 1),
    (28, 24, 0),
    (28, 32, 27),
    (27, 32, 17),
    (27, 48, 18),
    (27, 64, 23),
    (17, 40, 1),
];

// Commits the leaf.
fn commit_leaf(alloc: Global, dev: &mut MemoryDevice, space: &mut SpaceMap) -> Result<(), Fail>
    requires device { (memory_state dev.old).blocks ≡ 64 }
    requires space { space.old.block_count ≡ 64 }
    ensures goes { Goes (memory_state dev.old) (memory_state dev.new) }
{
    let cells = Vec::from_array(alloc, [leaf(alloc, dev)?])?;
    let placed = Placed {
        node: NodeId(23),
        how: How::Overwrite,
    };
    commit(alloc, 64, dev, &cells, &[placed], space)
}

// Looks at a number of a block, which stands in this row of its table.
fn same_number<X: Abort>(
    rt: &X,
    alloc: Global,
    dev: &mut MemoryDevice,
    row: usize,
    at: u64,
    byte: usize,
    wanted: u64,
) -> Result<(), Fail> {
    let block = read(alloc, dev, at)?;
    same_in(rt, &number(&block, byte), &wanted, row);
    Ok(())
}

// Looks at the numbers of a table.
fn same_numbers<X: Abort>(
    rt: &X,
    alloc: Global,
    dev: &mut MemoryDevice,
    numbers: &[(u64, usize, u64)],
) -> Result<(), Fail> {
    for (row, &(at, byte, wanted)) in numbers.iter().enumerate() {
        same_number(rt, alloc, dev, row, at, byte, wanted)?;
    }
    Ok(())
}

// Looks at the device of which the leaf's commit is made.
fn look_at_leaf<X: Abort>(rt: &X, alloc: Global, dev: &mut MemoryDevice) -> Result<(), Fail>
    requires { TellsCrashes (memory_state dev.old) }
{
    same(rt, &dev.clock(), &14, "writes and syncs");
    look_at_crashes(rt, alloc, dev)?;
    look_at_torn_writes(rt, alloc, dev)?;
    same_numbers(rt, alloc, dev, &NUMBERS)
}

// The leaf is committed on a volume whose space this is.
fn commit_the_leaf<X: Abort>(
    rt: &X,
    alloc: Global,
    dev: &mut MemoryDevice,
    space: &mut SpaceMap,
) -> Result<(), Fail>
    requires tells { TellsCrashes (memory_state dev.old) }
    requires device { (memory_state dev.old).blocks ≡ 64 }
    requires space { space.old.block_count ≡ 64 }
{
    commit_leaf(alloc, dev, space)?;
    look_at_leaf(rt, alloc, dev)?;
    // The log's blocks are held until the atom settles.
    same(rt, &space.free(), &35, "free blocks");
    settle(rt, alloc, dev, space, 40)
}

// The same, with the space that the volume has.
fn commit_a_leaf<X: Abort>(rt: &X, alloc: Global, dev: &mut MemoryDevice) -> Result<(), Fail>
    requires tells { TellsCrashes (memory_state dev.old) }
    requires device { (memory_state dev.old).blocks ≡ 64 }
{
    let mut space = space_of(alloc, dev, 40)?;
    commit_the_leaf(rt, alloc, dev, &mut space)
}

#[test]
fn a_leaf_is_committed(rt: HostRuntime) -> Result<(), Fail> {
    let mut dev = volume(rt.alloc(), 64)?;
    commit_a_leaf(&rt, rt.alloc(), &mut dev)
}

// Looks whether a block is all of one byte.
fn is_filled<X: Abort>(
    rt: &X,
    alloc: Global,
    dev: &mut MemoryDevice,
    at: u64,
    byte: u8,
) -> Result<(), Fail> {
    let block = read(alloc, dev, at)?;
    let whole = block.bytes().iter().all(|x| *x == byte);
    same_in(rt, &whole, &true, at as usize);
    Ok(())
}

// Settles atom 1, after which so many blocks are free, and those are 0 in the bitmap of the device.
fn settle<X: Abort>(
    rt: &X,
    alloc: Global,
    dev: &mut MemoryDevice,
    space: &mut SpaceMap,
    free: u64,
) -> Result<(), Fail>
    ensures goes { Goes (memory_state dev.old) (memory_state dev.new) }
    ensures space { space.new.block_count ≡ space.old.block_count }
{
    settle_space(rt, space, free);
    same_bitmap(rt, alloc, dev, free)?;
    same_super(rt, alloc, dev, free)
}

// Settles atom 1 in the space, of which so many blocks are free then.
fn settle_space<X: Abort>(rt: &X, space: &mut SpaceMap, free: u64)
    ensures { space.new.block_count ≡ space.old.block_count }
{
    space.seal(AtomNo(1));
    space.settle(AtomNo(1));
    same(rt, &space.free(), &free, "free blocks");
}

// Looks whether so many blocks are 0 in the bitmap of the device.
fn same_bitmap<X: Abort>(
    rt: &X,
    alloc: Global,
    dev: &mut MemoryDevice,
    free: u64,
) -> Result<(), Fail>
    ensures { Goes (memory_state dev.old) (memory_state dev.new) }
{
    let told = space_of(alloc, dev, free)?;
    same(rt, &told.free(), &free, "free blocks");
    Ok(())
}

// Looks whether so many blocks are free by the superblock of the device.
fn same_super<X: Abort>(
    rt: &X,
    alloc: Global,
    dev: &mut MemoryDevice,
    free: u64,
) -> Result<(), Fail>
    ensures { Goes (memory_state dev.old) (memory_state dev.new) }
{
    let super40 = super_of(alloc, dev)?;
    same(rt, &super40.free_blocks, &free, "free blocks");
    Ok(())
}

// Commits a data block that gets a block.
fn commit_data(alloc: Global, dev: &mut MemoryDevice, space: &mut SpaceMap) -> Result<(), Fail>
    requires device { (memory_state dev.old).blocks ≡ 64 }
    requires space { space.old.block_count ≡ 64 }
    ensures goes { Goes (memory_state dev.old) (memory_state dev.new) }
    ensures space { OnOk result (space.new.block_count ≡ 64) }
{
    let Some(block) = space.place(BlockNo(22)) else {
        return Err(Fail::from("no block is unused"));
    };
    let cells = Vec::from_array(alloc, [data(alloc, 40, 9)?])?;
    let placed = Placed {
        node: NodeId(40),
        how: How::Fresh(block),
    };
    commit(alloc, 64, dev, &cells, &[placed], space)
}

// Where what number stands after a second commit.
const SECOND: [(u64, usize, u64); 3] = [(19, 0, 31), (20, 0, 31), (31, 8, 2)];

// Looks at the device of which a second commit is made.
fn look_at_second<X: Abort>(rt: &X, alloc: Global, dev: &mut MemoryDevice) -> Result<(), Fail> {
    same_numbers(rt, alloc, dev, &SECOND)?;
    is_filled(rt, alloc, dev, 24, 9)
}

// A data block is committed, and its atom settles.
fn commit_first<X: Abort>(
    rt: &X,
    alloc: Global,
    dev: &mut MemoryDevice,
    space: &mut SpaceMap,
) -> Result<(), Fail>
    requires device { (memory_state dev.old).blocks ≡ 64 }
    requires space { space.old.block_count ≡ 64 }
    ensures goes { Goes (memory_state dev.old) (memory_state dev.new) }
    ensures space { OnOk result (space.new.block_count ≡ 64) }
{
    commit_data(alloc, dev, space)?;
    same(rt, &dev.clock(), &13, "writes and syncs");
    settle(rt, alloc, dev, space, 39)
}

// The first copy of the next commit stands on the last head, which the header names until it names the
// new one.
fn commit_second<X: Abort>(
    rt: &X,
    alloc: Global,
    dev: &mut MemoryDevice,
    space: &mut SpaceMap,
) -> Result<(), Fail>
    requires device { (memory_state dev.old).blocks ≡ 64 }
    requires space { space.old.block_count ≡ 64 }
{
    commit(alloc, 64, dev, &[], &[], space)?;
    look_at_second(rt, alloc, dev)?;
    settle(rt, alloc, dev, space, 39)
}

// Both, on a volume with the space that it has.
fn commit_twice<X: Abort>(rt: &X, alloc: Global, dev: &mut MemoryDevice) -> Result<(), Fail>
    requires { (memory_state dev.old).blocks ≡ 64 }
{
    let mut space = space_of(alloc, dev, 40)?;
    commit_first(rt, alloc, dev, &mut space)?;
    commit_second(rt, alloc, dev, &mut space)
}

#[test]
fn commits_follow_each_other(rt: HostRuntime) -> Result<(), Fail> {
    let mut dev = volume(rt.alloc(), 64)?;
    commit_twice(&rt, rt.alloc(), &mut dev)
}

// Places 600 blocks.
fn fill<X: Abort>(rt: &X, space: &mut SpaceMap)
    ensures { space.new.block_count ≡ space.old.block_count }
{
    for _block in 0..600u64 {
        let placed = space.place(BlockNo(22));
        same(rt, &placed.is_some(), &true, "placed");
    }
}

// Data blocks 300 to 599.
fn many(alloc: Global) -> Result<Vec<Arc<Cell>>, Fail>
    ensures { IfOk result (λ v. HaveBlocks 1024 (map (λ cell. arc_value cell) v.items)) }
{
    let mut cells = Vec::new(alloc);
    for id in 300..600 {
        cells.push(data(alloc, id, 9)?)?;
    }
    Ok(cells)
}

// Looks at the data blocks.
fn are_filled<X: Abort>(
    rt: &X,
    alloc: Global,
    dev: &mut MemoryDevice,
    byte: u8,
) -> Result<(), Fail> {
    for at in 300..600 {
        is_filled(rt, alloc, dev, at, byte)?;
    }
    Ok(())
}

// Commits the data blocks, after 600 blocks are placed.
fn commit_many<X: Abort>(
    rt: &X,
    alloc: Global,
    dev: &mut MemoryDevice,
    space: &mut SpaceMap,
) -> Result<(), Fail>
    requires device { (memory_state dev.old).blocks ≡ 1024 }
    requires space { space.old.block_count ≡ 1024 }
    ensures goes { Goes (memory_state dev.old) (memory_state dev.new) }
{
    fill(rt, space);
    let cells = many(alloc)?;
    commit(alloc, 1024, dev, &cells, &[], space)
}

// Lets the machine stop at a moment. A replay prints the line, and the data blocks are all of the byte.
fn look_at_stop<X: Abort>(
    rt: &X,
    alloc: Global,
    dev: &MemoryDevice,
    moment: u64,
    line: &str,
    byte: u8,
) -> Result<(), Fail>
    requires { TellsCrashes (memory_state dev.now) }
{
    let mut left = dev.crash(alloc, moment, 1)?;
    replays(alloc, &mut left, 0, line)?;
    are_filled(rt, alloc, &mut left, byte)
}

// Lets the machine stop before the header is synced, which is by call 308, and right after.
fn look_at_stops<X: Abort>(rt: &X, alloc: Global, dev: &MemoryDevice) -> Result<(), Fail>
    requires { TellsCrashes (memory_state dev.now) }
{
    look_at_stop(rt, alloc, dev, 200, "replayed 0\n", 0)?;
    look_at_stop(rt, alloc, dev, 308, "replayed 1\n", 9)
}

// Looks at the device of which the data blocks' commit is made.
fn look_at_many<X: Abort>(rt: &X, alloc: Global, dev: &mut MemoryDevice) -> Result<(), Fail>
    requires { TellsCrashes (memory_state dev.old) }
{
    // 302 copies, 2 records, the head, header, footer and 302 homes, and 4 syncs.
    same(rt, &dev.clock(), &613, "writes and syncs");
    look_at_stops(rt, alloc, dev)?;
    are_filled(rt, alloc, dev, 9)
}

// Many cells are committed on a volume whose space this is.
fn commit_and_look<X: Abort>(
    rt: &X,
    alloc: Global,
    dev: &mut MemoryDevice,
    space: &mut SpaceMap,
) -> Result<(), Fail>
    requires tells { TellsCrashes (memory_state dev.old) }
    requires device { (memory_state dev.old).blocks ≡ 1024 }
    requires space { space.old.block_count ≡ 1024 }
{
    commit_many(rt, alloc, dev, space)?;
    look_at_many(rt, alloc, dev)?;
    settle(rt, alloc, dev, space, 400)
}

// The same, with the space that the volume has.
fn commit_many_cells<X: Abort>(rt: &X, alloc: Global, dev: &mut MemoryDevice) -> Result<(), Fail>
    requires tells { TellsCrashes (memory_state dev.old) }
    requires device { (memory_state dev.old).blocks ≡ 1024 }
{
    let mut space = space_of(alloc, dev, 1000)?;
    commit_and_look(rt, alloc, dev, &mut space)
}

#[test]
fn many_cells_are_committed(rt: HostRuntime) -> Result<(), Fail> {
    let mut dev = volume(rt.alloc(), 1024)?;
    commit_many_cells(&rt, rt.alloc(), &mut dev)
}

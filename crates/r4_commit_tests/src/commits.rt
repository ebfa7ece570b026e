//! Commits on a device of zeros: one placed cell and two copies, and as many copies as fill records.

ghost use Rattle.std.specs.Prelude.{◌≡◌, ◌≢◌, ◌+◌, ◌/◌, ◌<◌, ◌≤◌, [], ◌∷◌, All, IfOk, length, map};
ghost use Rattle.r4_outside.specs.Device.{Goes, TellsCrashes};
ghost use Rattle.r4_outside.specs.Memory.{memory_state};
ghost use Rattle.r4_wander.specs.Progress.{FitOn};

use crate::same::{same, same_in};
use r4_base::{BlockNo, Key, NodeId, Oid};
use r4_cell::{Cell, read_cell};
use r4_commit_testing::{filled, number, read, replays};
use r4_outside::{Device, MemoryDevice, MemorySink};
use r4_testing::{REPLAY, call};
use r4_wander::{
    Blocks, HomeBlock, LogPlan, PlacedCell, PlacedCells, Stage, WanderedCopies, WanderedCopy,
    Writer,
};
use std::alloc::Global;
use std::process::Abort;
use std::sync::Arc;
use std::test::Fail;

// A data block of one byte.
fn cell(alloc: Global, byte: u8) -> Result<Arc<Cell>, Fail> {
    let lo = Key::body(41, 0, Oid(42), 0);
    let hi = Key::body(41, 0, Oid(42), 4096);
    let Ok(cell) = read_cell(alloc, NodeId(40), 0, lo, hi, 64, filled(alloc, byte)?) else {
        return Err(Fail::from("a data block is refused"));
    };
    Ok(cell)
}

// The record's block.
fn records(alloc: Global) -> Result<Blocks, Fail>
    ensures { IfOk result (λ b. b ≡ 23 ∷ []) }
{
    Ok(Blocks::from_vec(Vec::from_array(alloc, [BlockNo(23)])?))
}

// A cell of nines, placed at block 40.
fn placed(alloc: Global) -> Result<PlacedCells, Fail>
    ensures { IfOk result (λ cells. All (λ c. c.at < 64) cells) }
{
    let one = PlacedCell {
        at: BlockNo(40),
        cell: cell(alloc, 9)?,
    };
    Ok(PlacedCells::from_vec(Vec::from_array(alloc, [one])?))
}

// Copies of blocks 30 and 17, in this order: a block that was made, and the block of a cell.
fn copies(alloc: Global) -> Result<WanderedCopies, Fail>
    ensures two { IfOk result (λ all. length all ≡ 2) }
    ensures below { IfOk result (λ all. All (λ w. (w.original < 64) × (w.copy < 64)) all) }
    ensures named { IfOk result (λ all. All (λ o. o ≢ 0) (map (λ w. w.original) all)) }
{
    let one = WanderedCopy {
        original: BlockNo(30),
        copy: BlockNo(25),
        block: HomeBlock::Made(filled(alloc, 8)?),
    };
    let two = WanderedCopy {
        original: BlockNo(17),
        copy: BlockNo(24),
        block: HomeBlock::OfCell(cell(alloc, 7)?),
    };
    Ok(WanderedCopies::from_vec(Vec::from_array(alloc, [one, two])?))
}

// A writer that places the cell and overwrites the two blocks.
fn writer(alloc: Global) -> Result<Writer, Fail>
    ensures begun { IfOk result (λ w. w.part ≡ 0) }
    ensures fits { IfOk result (λ w. FitOn 64 w.plan) }
{
    let plan = LogPlan {
        id: 1,
        prev: BlockNo(0),
        head: BlockNo(22),
        records: records(alloc)?,
        placed: placed(alloc)?,
        wandered: copies(alloc)?,
        free_blocks: 5,
        nr_files: 6,
        next_oid: 43,
    };
    Ok(Writer::new(alloc, plan)?)
}

// Where what number stands: the block, the byte, and the number.
const NUMBERS: [(u64, usize, u64); 14] = [
    (19, 0, 22),
    (20, 0, 22),
    (20, 8, 5),
    (20, 16, 6),
    (20, 24, 43),
    (22, 8, 1),
    (22, 24, 0),
    (22, 32, 23),
    (23, 24, 22),
    (23, 32, 30),
    (23, 40, 25),
    (23, 48, 17),
    (23, 56, 24),
    (23, 64, 0),
];

// The blocks that are all of one byte, and the byte.
const FILLED: [(u64, u8); 5] = [(40, 9), (25, 8), (30, 8), (24, 7), (17, 7)];

// Makes steps up to `Footed`, which are to answer these stages.
fn make_steps<X: Abort>(
    rt: &X,
    writer: &mut Writer,
    dev: &mut MemoryDevice,
    stages: &[Stage],
) -> Result<(), Fail>
    requires begun { writer.old.part ≡ 0 }
    requires fits { FitOn (memory_state dev.old).blocks writer.old.plan }
    ensures { Goes (memory_state dev.old) (memory_state dev.new) }
{
    for (row, stage) in stages.iter().enumerate() {
        let Ok(got) = writer.step(dev) else {
            return Err(Fail::from("a step failed"));
        };
        same_in(rt, &got, stage, row);
        if got == Stage::Footed {
            return Ok(());
        }
    }
    Ok(())
}

// The calls of the commit in their order: the block that is written, or none for a sync.
const WRITES: [Option<u64>; 13] = [
    Some(22),
    Some(23),
    Some(24),
    Some(25),
    Some(40),
    None,
    Some(19),
    None,
    Some(17),
    Some(30),
    None,
    Some(20),
    None,
];

// Looks whether a block is all of one byte, in this row of its table.
fn is_all_of<X: Abort>(
    rt: &X,
    alloc: Global,
    dev: &mut MemoryDevice,
    at: u64,
    byte: u8,
    row: usize,
) -> Result<(), Fail> {
    let block = read(alloc, dev, at)?;
    let whole = block.bytes().iter().all(|x| *x == byte);
    same_in(rt, &whole, &true, row);
    Ok(())
}

// Looks whether a crash at this moment leaves each block that was not yet written as it was.
fn is_in_order<X: Abort>(
    rt: &X,
    alloc: Global,
    left: &mut MemoryDevice,
    moment: u64,
) -> Result<(), Fail> {
    for (call, write) in WRITES.iter().enumerate() {
        if let Some(at) = *write
            && call as u64 >= moment
        {
            is_all_of(rt, alloc, left, at, 0, moment as usize)?;
        }
    }
    Ok(())
}

// What a replay may print after a crash at a moment: how many transactions it puts in place, without the commit or with
// it. The header is written by call 7 and synced by call 8, the footer by calls 12 and 13.
fn lines_at(moment: u64) -> [&'static [u8]; 2] {
    let none: &[u8] = b"replayed 0\n";
    let one: &[u8] = b"replayed 1\n";
    match moment {
        7 | 12 => [none, one],
        8..=11 => [one, one],
        _ => [none, none],
    }
}

// Looks at what a replay printed after a crash at a moment, and tells whether the commit is in place.
fn is_told<X: Abort>(rt: &X, text: &[u8], moment: u64) -> bool {
    let lines = lines_at(moment);
    same_in(rt, &lines.contains(&text), &true, moment as usize);
    (text == lines[1] && moment >= 7) || moment >= 12
}

// Replays what a crash at a moment left, and tells whether the commit is in place.
fn is_replayed<X: Abort>(
    rt: &X,
    alloc: Global,
    left: &mut MemoryDevice,
    moment: u64,
) -> Result<bool, Fail> {
    let mut out = MemorySink::new(alloc, 100)?;
    let status = call(alloc, &REPLAY, left, &mut out)?;
    same_in(rt, &status, &0, moment as usize);
    Ok(is_told(rt, out.written(), moment))
}

// Replays what a crash at a moment left, and looks at the homes: all of them have their new content, or none has.
fn settles_whole<X: Abort>(
    rt: &X,
    alloc: Global,
    left: &mut MemoryDevice,
    moment: u64,
) -> Result<(), Fail> {
    let in_place = is_replayed(rt, alloc, left, moment)?;
    for (at, byte) in [(17, 7), (30, 8)] {
        let wanted = if in_place { byte } else { 0 };
        is_all_of(rt, alloc, left, at, wanted, moment as usize)?;
    }
    Ok(())
}

// Lets the machine stop at a moment of the commit, and looks at what this pick leaves.
fn look_at_crash<X: Abort>(
    rt: &X,
    alloc: Global,
    dev: &MemoryDevice,
    moment: u64,
    pick: u64,
) -> Result<(), Fail>
    requires { TellsCrashes (memory_state dev.now) }
{
    let mut left = dev.crash(alloc, moment, pick)?;
    is_in_order(rt, alloc, &mut left, moment)?;
    settles_whole(rt, alloc, &mut left, moment)
}

// Lets the machine stop at each moment of the commit.
fn look_at_crashes<X: Abort>(rt: &X, alloc: Global, dev: &MemoryDevice) -> Result<(), Fail>
    requires { TellsCrashes (memory_state dev.now) }
{
    for moment in 0..14 {
        for pick in 0..4 {
            look_at_crash(rt, alloc, dev, moment, pick)?;
        }
    }
    Ok(())
}

// Writes the commit.
fn write_commit<X: Abort>(rt: &X, alloc: Global, dev: &mut MemoryDevice) -> Result<(), Fail>
    requires { (memory_state dev.old).blocks ≡ 64 }
    ensures { Goes (memory_state dev.old) (memory_state dev.new) }
{
    let mut writer = writer(alloc)?;
    let stages = [
        Stage::Copies,
        Stage::Logged,
        Stage::Headed,
        Stage::Homes,
        Stage::Footed,
    ];
    make_steps(rt, &mut writer, dev, &stages)
}

// Looks at a number of a block, which stands in this row of its table.
fn same_number<X: Abort>(
    rt: &X,
    alloc: Global,
    dev: &mut MemoryDevice,
    row: usize,
    at: u64,
    byte: usize,
    wanted: u64,
) -> Result<(), Fail> {
    let block = read(alloc, dev, at)?;
    same_in(rt, &number(&block, byte), &wanted, row);
    Ok(())
}

// Looks at the numbers that the commit wrote.
fn look_at_numbers<X: Abort>(rt: &X, alloc: Global, dev: &mut MemoryDevice) -> Result<(), Fail> {
    for (row, &(at, byte, wanted)) in NUMBERS.iter().enumerate() {
        same_number(rt, alloc, dev, row, at, byte, wanted)?;
    }
    Ok(())
}

// Looks at the blocks that are all of one byte.
fn look_at_filled<X: Abort>(rt: &X, alloc: Global, dev: &mut MemoryDevice) -> Result<(), Fail> {
    for (row, &(at, byte)) in FILLED.iter().enumerate() {
        is_all_of(rt, alloc, dev, at, byte, row)?;
    }
    Ok(())
}

#[test]
fn a_commit_is_written(rt: HostRuntime) -> Result<(), Fail> {
    let mut dev = MemoryDevice::new(rt.alloc(), 64)?;
    write_commit(&rt, rt.alloc(), &mut dev)?;
    same(&rt, &dev.clock(), &13, "writes and syncs");
    look_at_crashes(&rt, rt.alloc(), &dev)?;
    look_at_numbers(&rt, rt.alloc(), &mut dev)?;
    look_at_filled(&rt, rt.alloc(), &mut dev)
}

// The byte of which copy i is made.
fn byte_of(i: u64) -> u8 {
    (i % 251 + 1) as u8
}

// So many copies: of original 300 + i at block 600 + i.
fn many_copies(alloc: Global, count: u32) -> Result<WanderedCopies, Fail>
    requires { count ≤ 255 }
    ensures length { IfOk result (λ all. length all ≡ count) }
    ensures below { IfOk result (λ all. All (λ w. (w.original < 1024) × (w.copy < 1024)) all) }
    ensures named { IfOk result (λ all. All (λ o. o ≢ 0) (map (λ w. w.original) all)) }
{
    let mut all = Vec::new(alloc);
    for i in 0..count {
        let i = i as u64;
        all.push(WanderedCopy {
            original: BlockNo(300 + i),
            copy: BlockNo(600 + i),
            block: HomeBlock::Made(filled(alloc, byte_of(i))?),
        })?;
    }
    Ok(WanderedCopies::from_vec(all))
}

// The blocks of the records of so many pairs.
fn records_of(alloc: Global, count: u32) -> Result<Blocks, Fail>
    requires some { 1 ≤ count }
    requires few { count ≤ 255 }
    ensures enough { IfOk result (λ b. length b ≡ (count + 253) / 254) }
    ensures below { IfOk result (λ b. All (λ block. block < 1024) b) }
{
    let mut blocks = Vec::from_array(alloc, [BlockNo(901)])?;
    if count > 254 {
        blocks.push(BlockNo(902))?;
    }
    Ok(Blocks::from_vec(blocks))
}

// No cell at all.
fn no_cells(alloc: Global) -> PlacedCells
    ensures { All (λ c. c.at < 1024) result }
{
    PlacedCells::from_vec(Vec::new(alloc))
}

// A writer of so many pairs.
fn wide_writer(alloc: Global, count: u32) -> Result<Writer, Fail>
    requires some { 1 ≤ count }
    requires few { count ≤ 255 }
    ensures begun { IfOk result (λ w. w.part ≡ 0) }
    ensures fits { IfOk result (λ w. FitOn 1024 w.plan) }
{
    let plan = LogPlan {
        id: 1,
        prev: BlockNo(0),
        head: BlockNo(900),
        records: records_of(alloc, count)?,
        placed: no_cells(alloc),
        wandered: many_copies(alloc, count)?,
        free_blocks: 5,
        nr_files: 6,
        next_oid: 43,
    };
    Ok(Writer::new(alloc, plan)?)
}

// Makes all steps.
fn finish(writer: &mut Writer, dev: &mut MemoryDevice) -> Result<(), Fail>
    requires begun { writer.old.part ≡ 0 }
    requires fits { FitOn (memory_state dev.old).blocks writer.old.plan }
    ensures { Goes (memory_state dev.old) (memory_state dev.new) }
{
    for _step in 0..200u64 {
        let Ok(got) = writer.step(dev) else {
            return Err(Fail::from("a step failed"));
        };
        if got == Stage::Footed {
            return Ok(());
        }
    }
    Err(Fail::from("the commit does not end"))
}

// Looks whether an original has its copy's content.
fn is_home<X: Abort>(rt: &X, alloc: Global, dev: &mut MemoryDevice, i: u64) -> Result<(), Fail>
    requires { i < 255 }
{
    let block = read(alloc, dev, 300 + i)?;
    let wanted = u64::from(byte_of(i)) * 0x0101_0101_0101_0101;
    same_in(rt, &number(&block, 0), &wanted, i as usize);
    same_in(rt, &number(&block, 4088), &wanted, i as usize);
    Ok(())
}

// Looks whether each original has its copy's content.
fn are_home<X: Abort>(rt: &X, alloc: Global, dev: &mut MemoryDevice, count: u32) -> Result<(), Fail>
    requires { count ≤ 255 }
{
    for i in 0..count {
        is_home(rt, alloc, dev, u64::from(i))?;
    }
    Ok(())
}

// Writes a commit of so many pairs.
fn write_wide(alloc: Global, dev: &mut MemoryDevice, count: u32) -> Result<(), Fail>
    requires device { (memory_state dev.old).blocks ≡ 1024 }
    requires some { 1 ≤ count }
    requires few { count ≤ 255 }
    ensures { Goes (memory_state dev.old) (memory_state dev.new) }
{
    let mut writer = wide_writer(alloc, count)?;
    finish(&mut writer, dev)
}

// Lets the machine stop at a moment, and looks whether a replay puts the commit in place.
fn is_home_after<X: Abort>(
    rt: &X,
    alloc: Global,
    dev: &MemoryDevice,
    moment: u64,
    count: u32,
) -> Result<(), Fail>
    requires device { TellsCrashes (memory_state dev.now) }
    requires few { count ≤ 255 }
{
    let mut left = dev.crash(alloc, moment, 0)?;
    replays(alloc, &mut left, 0, "replayed 1\n")?;
    are_home(rt, alloc, &mut left, count)
}

// Commits so many pairs, which need so many records.
fn fills_records<X: Abort>(rt: &X, alloc: Global, count: u32, records: u32) -> Result<(), Fail>
    requires some { 1 ≤ count }
    requires few { count ≤ 255 }
    requires records { records ≤ 2 }
{
    let mut dev = MemoryDevice::new(alloc, 1024)?;
    write_wide(alloc, &mut dev, count)?;
    let (pairs, records) = (u64::from(count), u64::from(records));
    same(
        rt,
        &dev.clock(),
        &(2 * pairs + records + 7),
        "writes and syncs",
    );
    // The header was just synced.
    is_home_after(rt, alloc, &dev, pairs + records + 4, count)?;
    are_home(rt, alloc, &mut dev, count)
}

#[test]
fn commits_fill_their_records(rt: HostRuntime) -> Result<(), Fail> {
    // The pairs, and the records that they need.
    for (count, records) in [(1, 1), (254, 1), (255, 2)] {
        fills_records(&rt, rt.alloc(), count, records)?;
    }
    Ok(())
}

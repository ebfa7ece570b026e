//! Fresh volumes of 64 blocks, of which a few bytes were changed, and what a check prints.

use r4_base::{Block, BlockNo, LayoutFault};
use r4_cell::ImageFault;
use r4_check::{ListFault, Verdict, check};
use r4_mkfs::mkfs;
use r4_outside::{Device, MemoryDevice, MemorySink};
use std::alloc::Global;
use std::process::Abort;
use std::test::Fail;

// The superblock, the bitmap, the root and the leaf of a fresh volume.
const SUPER: u64 = 17;

const BITMAP: u64 = 18;

const ROOT: u64 = 22;

const LEAF: u64 = 23;

// Bytes of blocks, and what they are made.
type Changes = &'static [(u64, usize, u8)];

// Where the one pointer of the root is, the offset of the leaf's one item, the bits of blocks 16 to 23, and the number of
// free blocks.
const POINTER: usize = 28;

const OFFSET: usize = 4090;

// The fields of the leaf's stat data: the upper byte of the mode, links, size and bytes; the offset and the object id of
// its key; and the count of objects in the superblock.
const MODE: usize = 31;

const NLINK: usize = 32;

const SIZE: usize = 36;

const BYTES: usize = 64;

const KEY: usize = 4082;

const ID: usize = 4074;

const FILES: usize = 32;

const BITS: usize = 6;

const FREE: usize = 8;

// A second item in the root: an extent of blocks 25 and 26, a hole, and block 25 again.
const EXTENT: Changes = &[
    (ROOT, 2, 2),
    (ROOT, 4, 0x60),
    (ROOT, 6, 84),
    (ROOT, 4020, 0xa4),
    (ROOT, 4021, 2),
    (ROOT, 4038, 1),
    (ROOT, 4052, 36),
    (ROOT, 4056, 5),
    (ROOT, 36, 25),
    (ROOT, 44, 2),
    (ROOT, 60, 1),
    (ROOT, 68, 25),
    (ROOT, 76, 1),
];

// What is changed; the lines; the numbers of objects and of faults.
static ROWS: [(Changes, &str, (u64, u64)); 15] = [
    (&[], "", (1, 0)),
    (&[(ROOT, POINTER, 22)], "fault block 22: twice\n", (0, 1)),
    (&[(ROOT, POINTER, 70)], "fault block 22: pointer\n", (0, 1)),
    (&[(LEAF, OFFSET, 29)], "fault block 23: node\n", (0, 1)),
    (
        &[(BITMAP, BITS, 0x7f), (SUPER, FREE, 41)],
        "fault block 23: unmarked\n",
        (1, 1),
    ),
    (
        &[(BITMAP, BITS, 0x7f), (SUPER, FREE, 41), (LEAF, OFFSET, 29)],
        "fault block 23: unmarked\n",
        (0, 1),
    ),
    (&[(LEAF, NLINK, 3)], "fault block 23: links\n", (1, 1)),
    (&[(LEAF, SIZE, 1)], "fault block 23: size\n", (1, 1)),
    (&[(LEAF, BYTES, 1)], "fault block 23: size\n", (1, 1)),
    (&[(SUPER, FILES, 2)], "fault block 17: files\n", (1, 1)),
    (
        &[(LEAF, SIZE, 1), (LEAF, NLINK, 3), (SUPER, FILES, 2)],
        "fault block 23: size\nfault block 23: links\nfault block 17: files\n",
        (1, 3),
    ),
    (
        &[(LEAF, MODE, 0x80)],
        "fault block 23: links\nfault block 23: lost\n",
        (1, 2),
    ),
    (&[(LEAF, KEY, 1)], "fault block 23: lost\n", (1, 1)),
    (
        &[(LEAF, ID, 43)],
        "fault block 23: lost\nfault block 23: lost\n",
        (1, 2),
    ),
    (
        EXTENT,
        "fault block 25: unmarked\nfault block 26: unmarked\nfault block 25: twice\n",
        (1, 3),
    ),
];

// Makes changes in a volume.
fn damage(alloc: Global, dev: &mut MemoryDevice, changes: &[(u64, usize, u8)]) -> Result<(), Fail> {
    let mut block = Block::zeroed(alloc)?;
    for &(at, place, byte) in changes {
        change(dev, &mut block, at, place, byte)?;
    }
    Ok(())
}

// Changes a byte of a block of the device, by way of `block`.
fn change<D: Device>(
    dev: &mut D,
    block: &mut Block,
    at: u64,
    place: usize,
    byte: u8,
) -> Result<(), Fail> {
    if at >= dev.blocks()? {
        return Err(Fail::from("there is no such block"));
    }
    dev.read(BlockNo(at), block)?;
    if place < 4096 {
        block.bytes_mut()[place] = byte;
    }
    dev.write(BlockNo(at), block)?;
    Ok(())
}

// A fresh volume with these changes.
fn volume(alloc: Global, changes: &[(u64, usize, u8)]) -> Result<MemoryDevice, Fail> {
    let mut dev = MemoryDevice::plain(alloc, 64)?;
    mkfs(alloc, &mut dev, b"")?;
    damage(alloc, &mut dev, changes)?;
    Ok(dev)
}

// What a check answers, in this row of its table.
fn answers<X: Abort>(
    rt: &X,
    alloc: Global,
    dev: &mut MemoryDevice,
    out: &mut MemorySink,
    answer: &Result<Verdict, ListFault>,
    row: usize,
) {
    let got = check(alloc, dev, out);
    assert_eq!(rt; got, *answer, "answer of row {row}");
}

// What a check answers and prints.
fn checks<X: Abort>(
    rt: &X,
    alloc: Global,
    dev: &mut MemoryDevice,
    out: &mut MemorySink,
    answer: &Result<Verdict, ListFault>,
    lines: &str,
    row: usize,
) {
    answers(rt, alloc, dev, out, answer, row);
    assert_eq!(rt; out.written(), lines.as_bytes(), "lines of row {row}");
}

// What a check answers and prints of a volume with these changes.
fn finds<X: Abort>(
    rt: &X,
    alloc: Global,
    changes: &[(u64, usize, u8)],
    answer: &Result<Verdict, ListFault>,
    lines: &str,
    row: usize,
) -> Result<(), Fail> {
    let mut dev = volume(alloc, changes)?;
    let mut out = MemorySink::new(alloc, 100)?;
    checks(rt, alloc, &mut dev, &mut out, answer, lines, row);
    Ok(())
}

#[test]
fn faults_of_trees_are_printed(rt: HostRuntime) -> Result<(), Fail> {
    for (row, &(changes, lines, (objects, faults))) in ROWS.iter().enumerate() {
        let wanted = Ok(Verdict { objects, faults });
        finds(&rt, rt.alloc(), changes, &wanted, lines, row)?;
    }
    Ok(())
}

#[test]
fn bitmaps_are_looked_at_before_the_tree(rt: HostRuntime) -> Result<(), Fail> {
    let fault = ImageFault::Layout(LayoutFault::Bitmap);
    let block = BlockNo(BITMAP);
    let wanted = Err(ListFault::Image { block, fault });
    finds(&rt, rt.alloc(), &[(BITMAP, BITS, 0x7f)], &wanted, "", 0)
}

// How many blocks are read of the last row: header, footer, superblocks, bitmap, root and leaf.
const READS: u64 = 7;

// How many calls make that volume: eight writes and two syncs, and a read and a write for each change.
const MADE: u64 = 10 + 2 * 13;

// What a check answers where this read fails, counted from 1.
fn fails<X: Abort>(rt: &X, alloc: Global, read: u64) -> Result<(), Fail> {
    let mut dev = volume(alloc, EXTENT)?;
    dev.fail(alloc, MADE.wrapping_add(read))?;
    let clock = dev.clock();
    let wanted = Err(ListFault::Device { clock, faults: 1 });
    let mut out = MemorySink::new(alloc, 100)?;
    answers(rt, alloc, &mut dev, &mut out, &wanted, read as usize);
    Ok(())
}

#[test]
fn failures_end_a_check(rt: HostRuntime) -> Result<(), Fail> {
    for read in 1..READS + 1 {
        fails(&rt, rt.alloc(), read)?;
    }
    Ok(())
}

#[test]
fn lines_before_a_failure_stay(rt: HostRuntime) -> Result<(), Fail> {
    let alloc = rt.alloc();
    let mut dev = volume(alloc, EXTENT)?;
    let mut out = MemorySink::new(alloc, 100)?;
    out.fail(alloc, 7)?;
    let line = "fault block 25: unmarked\nfault block ";
    let wanted = Err(ListFault::Sink { faults: 1 });
    checks(&rt, alloc, &mut dev, &mut out, &wanted, line, 0);
    Ok(())
}

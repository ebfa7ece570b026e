//! Listings of a fresh volume.

ghost use Rattle.std.specs.Prelude.{IfOk};
ghost use Rattle.r4_outside.specs.Device.{TellsCrashes};
ghost use Rattle.r4_outside.specs.Memory.{memory_state};

use crate::same::same;
use r4_base::{Block, BlockNo, CellFault, LayoutFault, NodeFault};
use r4_list::{ImageFault, ListFault, list};
use r4_outside::{Device, MemoryDevice, MemorySink};
use r4_testing::call;
use std::alloc::Global;
use std::process::Abort;
use std::test::Fail;

// A fresh volume of 64 blocks, of which no call was made.
fn volume<X: Abort>(rt: &X, alloc: Global) -> Result<MemoryDevice, Fail> {
    let mut dev = MemoryDevice::new(alloc, 64)?;
    let mut out = MemorySink::new(alloc, 100)?;
    let code = call(alloc, &["mkfs", "image"], &mut dev, &mut out)?;
    same(rt, &code, &0, "made");
    Ok(dev.crash(alloc, dev.clock(), 0)?)
}

// Lists a path, and looks at what is answered and printed; nothing is written.
fn lists<X: Abort>(
    rt: &X,
    alloc: Global,
    dev: &mut MemoryDevice,
    path: &str,
    wanted: Result<(), ListFault>,
    text: &str,
) -> Result<(), Fail> {
    let path = path.as_bytes();
    if path.is_empty() {
        return Err(Fail::from("a path has a slash"));
    }
    let mut out = MemorySink::new(alloc, 100)?;
    let before = dev.clock();
    let got = list(alloc, dev, path, &mut out);
    same(rt, &got, &wanted, text);
    same(rt, &out.written(), &text.as_bytes(), text);
    same(rt, &dev.clock(), &before, text);
    Ok(())
}

// Paths of a fresh volume, and what is printed.
static PATHS: [(&str, &str); 5] = [
    ("/", "d 0755 2 0 0 0 /\n"),
    ("/a", "absent\n"),
    ("/a/b", "absent\n"),
    ("//", "name\n"),
    ("/a/", "name\n"),
];

// How many blocks are read for the root: header, footer, superblocks, bitmap, root node and leaf.
const READS: u64 = 7;

#[test]
fn a_fresh_volume_is_listed(rt: HostRuntime) -> Result<(), Fail> {
    lists_paths(&rt, rt.alloc())?;
    lists_with_failures(&rt, rt.alloc())
}

// Lists each of the paths.
fn lists_paths<X: Abort>(rt: &X, alloc: Global) -> Result<(), Fail> {
    for &(path, text) in &PATHS {
        let mut dev = volume(rt, alloc)?;
        lists(rt, alloc, &mut dev, path, Ok(()), text)?;
    }
    Ok(())
}

// Lists the root where each of the reads fails in turn, and then none.
fn lists_with_failures<X: Abort>(rt: &X, alloc: Global) -> Result<(), Fail> {
    for call in 1..READS + 2 {
        let mut dev = volume(rt, alloc)?;
        dev.fail(alloc, call)?;
        let (wanted, text) = where_fails(call);
        lists(rt, alloc, &mut dev, "/", wanted, text)?;
    }
    Ok(())
}

// What is answered and printed where this call fails.
fn where_fails(call: u64) -> (Result<(), ListFault>, &'static str) {
    if call > READS {
        return (Ok(()), "d 0755 2 0 0 0 /\n");
    }
    let failed = ListFault::Device {
        clock: 0,
        faults: 1,
    };
    (Err(failed), "")
}

// What is answered where a block is full of zeros.
fn without_block(at: u64) -> ListFault {
    let fault = match at {
        16 | 17 => ImageFault::Layout(LayoutFault::Magic),
        18 => ImageFault::Layout(LayoutFault::Bitmap),
        _ => ImageFault::Cell(CellFault::Node(NodeFault::Magic)),
    };
    ListFault::Image {
        block: BlockNo(at),
        fault,
    }
}

#[test]
fn a_damaged_volume_is_not_listed(rt: HostRuntime) -> Result<(), Fail> {
    for at in [16u64, 17, 18, 22, 23] {
        let mut dev = volume(&rt, rt.alloc())?;
        clear(&mut dev, at, &Block::zeroed(rt.alloc())?)?;
        lists(&rt, rt.alloc(), &mut dev, "/", Err(without_block(at)), "")?;
    }
    Ok(())
}

// Puts zeros in a block's place.
fn clear(dev: &mut MemoryDevice, at: u64, zeros: &Block) -> Result<(), Fail> {
    if at >= dev.blocks()? {
        return Err(Fail::from("there is no such block"));
    }
    dev.write(BlockNo(at), zeros)?;
    Ok(())
}

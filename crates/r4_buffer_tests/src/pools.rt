//! What one step reads.

ghost use Rattle.std.specs.Prelude.{◌≤◌};
ghost use Rattle.r4_search.specs.Path.{root_name};
ghost use Rattle.r4_search.specs.Pool.{IsKnown};

use crate::cells::{cell, put_one, same, spell_node};
use r4_base::{Block, BlockNo, CellFault, NodeId};
use r4_buffer::{Buffer, Reading};
use r4_cell::{Root, least};
use r4_outside::{Device, Failed, MemoryDevice};
use r4_search::{FetchFault, Keeping, Pool, cover};
use std::alloc::Global;
use std::test::Fail;

// A device that counts its reads.
#[derive(Drop)]
struct Counting {
    dev: MemoryDevice,
    reads: u64,
}

impl Device for Counting {
    ghost use Rattle.r4_outside.specs.Memory.{memory_state};

    ghost state = { λ d. memory_state d.dev };

    fn blocks(&mut self) -> Result<u64, Failed> {
        self.dev.blocks()
    }

    fn read(&mut self, at: BlockNo, into: &mut Block) -> Result<(), Failed> {
        self.reads = self.reads.saturating_add(1);
        self.dev.read(at, into)
    }

    fn write(&mut self, at: BlockNo, from: &Block) -> Result<(), Failed> {
        self.dev.write(at, from)
    }

    fn sync(&mut self) -> Result<(), Failed> {
        self.dev.sync()
    }

    fn clock(&self) -> u64 {
        self.dev.clock()
    }

    fn faults(&self) -> u64 {
        self.dev.faults()
    }
}

// Writes a node of a level with one pointer; a leaf has no item.
fn write_node(alloc: Global, dev: &mut Counting, at: u64, level: u8, to: u64) -> Result<(), Fail> {
    let mut block = Block::zeroed(alloc)?;
    spell_node(&mut block, level, 0, to);
    write_block(dev, at, &block)
}

// Writes a block of the device.
fn write_block<D: Device>(dev: &mut D, at: u64, block: &Block) -> Result<(), Fail> {
    if at >= dev.blocks()? {
        return Err(Fail::from("there is no such block"));
    }
    dev.write(BlockNo(at), block)?;
    Ok(())
}

// A tree of height 8, whose nodes have a pointer each: the root in block 22, the others from block 24 on, and the leaf in
// block 23.
fn high_tree(alloc: Global) -> Result<Counting, Fail> {
    let mut dev = Counting {
        dev: MemoryDevice::plain(alloc, 64)?,
        reads: 0,
    };
    for (at, level, to) in [
        (22, 8, 24),
        (24, 7, 25),
        (25, 6, 26),
        (26, 5, 27),
        (27, 4, 28),
        (28, 3, 29),
        (29, 2, 23),
        (23, 1, 0),
    ] {
        write_node(alloc, &mut dev, at, level, to)?;
    }
    Ok(dev)
}

const ROOT: Root = Root {
    id: NodeId(22),
    height: 8,
};

// The number of cells on the way to the least key.
fn search<P: Pool>(alloc: Global, pool: &mut P, root: &Root) -> Result<u64, FetchFault>
    requires some { 1 ≤ root.now.height }
    requires known { IsKnown (P.state pool.old) (root_name root.now) }
    ensures known { IsKnown (P.state pool.new) (root_name root.now) }
{
    let path = cover(alloc, pool, root, &least())?;
    Ok(path.len() as u64)
}

// Searches so many times, and gives what the last search found.
fn search_all<P: Pool>(
    alloc: Global,
    pool: &mut P,
    root: &Root,
    times: u32,
) -> Result<u64, FetchFault>
    requires some { 1 ≤ root.now.height }
    requires known { IsKnown (P.state pool.old) (root_name root.now) }
{
    let mut found = 0;
    'searches: for _ in 0..times {
        found = search(alloc, pool, root)?;
    }
    Ok(found)
}

#[test]
fn each_block_is_read_once(rt: HostRuntime) -> Result<(), Fail> {
    let mut dev = high_tree(rt.alloc())?;
    let found = found_without_cells(rt.alloc(), &mut dev)?;
    same(&rt, &found, &Ok(8), "the cells on the way");
    same(&rt, &dev.reads, &8, "reads");
    Ok(())
}

// What a hundred searches find where no cell is in memory.
fn found_without_cells(alloc: Global, dev: &mut Counting) -> Result<Result<u64, FetchFault>, Fail> {
    if dev.blocks()? != 64 {
        return Err(Fail::from("no device was made"));
    }
    let buffer = Buffer::new(alloc);
    let mut reading = Keeping::all(alloc, Reading::new(dev, &buffer, ROOT, 64));
    Ok(search_all(alloc, &mut reading, &ROOT, 100))
}

// The leaf's block is a data block that an atom owns.
#[test]
fn a_captured_cell_of_another_level_is_damage(rt: HostRuntime) -> Result<(), Fail> {
    let alloc = rt.alloc();
    let mut dev = high_tree(alloc)?;
    if dev.blocks()? != 64 {
        return Err(Fail::from("no device was made"));
    }
    let mut buffer = Buffer::new(alloc);
    put_one(alloc, &mut buffer, &[], cell(alloc, 23, 0, 0, 4096)?)?;
    let mut reading = Keeping::all(alloc, Reading::new(&mut dev, &buffer, ROOT, 64));
    let found = search_all(alloc, &mut reading, &ROOT, 2);
    let _ = reading.into_pool().into_device();
    let damaged = FetchFault::Damaged {
        block: BlockNo(23),
        fault: CellFault::Level,
    };
    same(&rt, &found, &Err(damaged), "the leaf");
    same(&rt, &dev.reads, &7, "reads");
    Ok(())
}

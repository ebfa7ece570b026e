//! The blocks of a device, for a test.

ghost use Rattle.std.specs.Prelude.{◌≡◌, ◌<◌, length, IfOk};
ghost use Rattle.r4_outside.specs.Device.{Goes, TellsCrashes};
ghost use Rattle.r4_outside.specs.Memory.{memory_state};

use r4_base::{Block, BlockNo, Footer, Header, TxHead, get64, put64};
use r4_logfmt::{write_footer, write_head, write_header, write_record};
use r4_outside::{Device, MemoryDevice};
use std::alloc::Global;
use std::test::Fail;

#[derive(Drop)]
pub struct Image {
    alloc: Global,
    blocks: Vec<Block>,
}

impl Image {
    /// So many blocks, which hold their numbers, so that no two are alike.
    pub fn new(alloc: Global, count: u64) -> Result<Image, Fail> {
        let mut blocks = Vec::new(alloc);
        for number in 0..count {
            let mut block = Block::zeroed(alloc)?;
            number_sectors(block.bytes_mut(), number);
            blocks.push(block)?;
        }
        Ok(Image { alloc, blocks })
    }

    /// The same blocks.
    pub fn copy(&self) -> Result<Image, Fail> {
        let mut blocks = Vec::new(self.alloc);
        for block in &self.blocks {
            blocks.push(block.copy(self.alloc)?)?;
        }
        Ok(Image {
            alloc: self.alloc,
            blocks,
        })
    }

    pub fn block(&self, at: u64) -> Result<&Block, Fail> {
        match self.blocks.get(at as usize) {
            Some(block) => Ok(block),
            None => Err(Fail::from("there is no such block")),
        }
    }

    pub fn put(&mut self, at: u64, from: &Block) -> Result<(), Fail> {
        let place = at as usize;
        if place >= self.blocks.len() {
            return Err(Fail::from("there is no such block"));
        }
        let block = &mut self.blocks[place];
        block.copy_from(from);
        Ok(())
    }

    /// Copies one sector of eight.
    pub fn put_sector(&mut self, at: u64, s: usize, from: &Block) -> Result<(), Fail> {
        let place = at as usize;
        if place >= self.blocks.len() || s >= 8 {
            return Err(Fail::from("there is no such sector"));
        }
        let start = 512 * s;
        let sector = &from.bytes()[start..start + 512];
        let block = &mut self.blocks[place];
        block.part_mut(start, start + 512).copy_from_slice(sector);
        Ok(())
    }

    /// A device of these blocks, which keeps no record.
    pub fn device(&self) -> Result<MemoryDevice, Fail> {
        let mut dev = MemoryDevice::plain(self.alloc, self.blocks.len() as u64)?;
        write_all(&mut dev, &self.blocks)?;
        dev.sync()?;
        Ok(dev)
    }

    /// The same device, which keeps a record and of which no call was made.
    pub fn recorded(&self) -> Result<MemoryDevice, Fail>
        ensures { IfOk result (λ d. TellsCrashes (memory_state d)) }
    {
        let mut dev = MemoryDevice::new(self.alloc, self.blocks.len() as u64)?;
        write_all(&mut dev, &self.blocks)?;
        dev.sync()?;
        Ok(dev.crash(self.alloc, dev.clock(), 0)?)
    }

    /// The first block in which a device differs, if there is one.
    pub fn first_difference(&self, dev: &mut MemoryDevice) -> Result<Option<u64>, Fail> {
        let count = dev.blocks()?;
        for (at, block) in self.blocks.iter().enumerate() {
            let at = at as u64;
            if at >= count || !is_same(dev.block(BlockNo(at)).bytes(), block.bytes()) {
                return Ok(Some(at));
            }
        }
        Ok(None)
    }

    /// Appends a transaction to the log, with its record right behind its head. `newest` is the head before it, or 0.
    pub fn commit(&mut self, head: u64, newest: u64, pairs: &[(u64, u64)]) -> Result<(), Fail> {
        if head >= 1000 || pairs.len() > 254 || !pairs.iter().all(|&(original, _)| original != 0) {
            return Err(Fail::from("the pairs do not fit into a record"));
        }
        let mut block = Block::zeroed(self.alloc)?;
        write_head(block.bytes_mut(), &head_at(head, newest));
        self.put(head, &block)?;
        write_record(block.bytes_mut(), head, 2, 1, head, pairs);
        self.put(head + 1, &block)?;
        self.name(head)
    }

    // Lets the journal header name a head.
    fn name(&mut self, head: u64) -> Result<(), Fail> {
        let mut block = self.block(19)?.copy(self.alloc)?;
        write_header(block.bytes_mut(), &Header { last: head });
        self.put(19, &block)
    }

    /// Lets the journal footer say that no transaction was placed.
    pub fn name_none_placed(&mut self) -> Result<(), Fail> {
        let mut block = self.block(20)?.copy(self.alloc)?;
        let footer = Footer {
            last: 0,
            free_blocks: 0,
            nr_files: 0,
            next_oid: 0,
        };
        write_footer(block.bytes_mut(), &footer);
        self.put(20, &block)
    }
}

fn head_at(at: u64, prev_tx: u64) -> TxHead
    requires { at < 1000 }
{
    TxHead {
        id: at,
        total: 2,
        prev_tx,
        next_block: at + 1,
        free_blocks: 10,
        nr_files: 20,
        next_oid: 30,
    }
}

// Each sector of a block begins and ends with the block's number.
fn number_sectors(b: &mut [u8], number: u64)
    requires { length b.old ≡ 4096 }
{
    for sector in 0..8usize {
        put64(b, 512 * sector, number);
        put64(b, 512 * sector + 504, number);
    }
}

// Do two blocks hold the same? Words are compared, since bytes take long where each step is checked.
fn is_same(one: &[u8], other: &[u8]) -> bool
    requires one { length one.now ≡ 4096 }
    requires other { length other.now ≡ 4096 }
{
    (0..512usize).all(|word| get64(one, 8 * word) == get64(other, 8 * word))
}

// Writes each block to its place.
fn write_all(dev: &mut MemoryDevice, blocks: &[Block]) -> Result<(), Fail>
    ensures { Goes (memory_state dev.old) (memory_state dev.new) }
{
    for (at, block) in blocks.iter().enumerate() {
        write_block(dev, at as u64, block)?;
    }
    Ok(())
}

fn write_block(dev: &mut MemoryDevice, at: u64, block: &Block) -> Result<(), Fail>
    ensures { Goes (memory_state dev.old) (memory_state dev.new) }
{
    if at >= dev.blocks()? {
        return Err(Fail::from("there is no such block"));
    }
    dev.write(BlockNo(at), block)?;
    Ok(())
}

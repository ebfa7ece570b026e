//! Images with a log, made up for a test.

ghost use Rattle.std.specs.Prelude.{◌≡◌, length, IfOk};
ghost use Rattle.r4_outside.specs.Device.{Goes, TellsCrashes};
ghost use Rattle.r4_outside.specs.Memory.{memory_state};

use r4_base::{Block, BlockNo, Footer, Header, Memory, TxHead, get64, put32, put64};
use r4_logfmt::{write_footer, write_head, write_header, write_record};
use r4_outside::{Device, MemoryDevice};
use std::alloc::Global;
use std::test::Fail;

/// An original and a wandered block.
pub type Pair = (u64, u64);

/// A field of the journal header, a head or a record.
#[derive(Clone, Copy, Debug, PartialEq, Eq)]
pub enum Field {
    Byte(u16),
    Newest,
    Id,
    Total,
    PrevTx,
    FirstRecord,
    Serial,
    NextBlock,
    Original(u8),
    Wandered(u8),
}

/// The block, the field in it, and what the field is to hold.
pub type Change = (u64, Field, u64);

/// The blocks of an image.
#[derive(Drop)]
pub struct Image {
    alloc: Global,
    blocks: Vec<Block>,
    newest: u32,
}

impl Image {
    /// A log that holds nothing. The blocks hold their numbers, so that no two are alike.
    pub fn new(alloc: Global, count: u64) -> Result<Image, Fail> {
        let mut blocks = Vec::new(alloc);
        for number in 0..count {
            let mut block = Block::zeroed(alloc)?;
            number_sectors(block.bytes_mut(), number);
            blocks.push(block)?;
        }
        let mut image = Image {
            alloc,
            blocks,
            newest: 0,
        };
        image.name_newest(0)?;
        image.name_placed()?;
        Ok(image)
    }

    /// A device in memory that holds the image.
    pub fn device(&self) -> Result<MemoryDevice, Fail> {
        let mut dev = MemoryDevice::plain(self.alloc, self.blocks.len() as u64)?;
        write_all(&mut dev, &self.blocks)?;
        Ok(dev)
    }

    /// The same device, which keeps a record and of which no call was made.
    pub fn fresh_device(&self) -> Result<MemoryDevice, Fail>
        ensures { IfOk result (λ d. TellsCrashes (memory_state d)) }
    {
        let mut dev = MemoryDevice::new(self.alloc, self.blocks.len() as u64)?;
        write_all(&mut dev, &self.blocks)?;
        dev.sync()?;
        Ok(dev.crash(self.alloc, dev.clock(), 0)?)
    }

    /// Appends a transaction to the log, by the pairs of its records. They stand right behind the head.
    pub fn commit(&mut self, head: u32, records: &[&[Pair]]) -> Result<(), Fail> {
        if records.len() > 1000 {
            return Err(Fail::from("too many records"));
        }
        let total = records.len() as u32 + 1;
        let mut block = Block::zeroed(self.alloc)?;
        write_head(
            block.bytes_mut(),
            &numbers_of(head, total, self.newest as u64),
        );
        self.put(head as u64, &block)?;
        for (i, pairs) in records.iter().enumerate() {
            let serial = i as u32 + 1;
            let at = head as u64 + serial as u64;
            let next = if serial + 1 == total {
                head as u64
            } else {
                at + 1
            };
            spell_record(block.bytes_mut(), head, total, serial, next, pairs)?;
            self.put(at, &block)?;
        }
        self.name_newest(head)
    }

    // Lets the journal header name a head.
    fn name_newest(&mut self, head: u32) -> Result<(), Fail> {
        let mut block = self.block(19)?.copy(self.alloc)?;
        write_header(block.bytes_mut(), &Header { last: head as u64 });
        self.newest = head;
        self.put(19, &block)
    }

    /// Lets the journal footer name the newest head, with the head's numbers.
    pub fn name_placed(&mut self) -> Result<(), Fail> {
        let says = numbers_of(self.newest, 0, 0);
        let mut block = self.block(20)?.copy(self.alloc)?;
        let footer = Footer {
            last: self.newest as u64,
            free_blocks: says.free_blocks,
            nr_files: says.nr_files,
            next_oid: says.next_oid,
        };
        write_footer(block.bytes_mut(), &footer);
        self.put(20, &block)
    }

    /// Copies each wandered block to its original, in order.
    pub fn place(&mut self, pairs: &[Pair]) -> Result<(), Fail> {
        for &(original, wandered) in pairs {
            let block = self.block(wandered)?.copy(self.alloc)?;
            self.put(original, &block)?;
        }
        Ok(())
    }

    /// Writes the blocks of these changes as they are here.
    pub fn restore(&self, dev: &mut MemoryDevice, changes: &[Change]) -> Result<(), Fail> {
        for &(at, _, _) in changes {
            write_block(dev, at, self.block(at)?)?;
        }
        Ok(())
    }

    /// The same image.
    pub fn copy(&self) -> Result<Image, Memory> {
        let mut blocks = Vec::new(self.alloc);
        for block in &self.blocks {
            blocks.push(block.copy(self.alloc)?)?;
        }
        Ok(Image {
            alloc: self.alloc,
            blocks,
            newest: self.newest,
        })
    }

    /// The first block in which a device differs, if there is one.
    pub fn first_difference(&self, dev: &mut MemoryDevice) -> Result<Option<u64>, Fail> {
        let count = dev.blocks()?;
        for (at, block) in self.blocks.iter().enumerate() {
            let at = at as u64;
            if at >= count || !is_same(dev.block(BlockNo(at)).bytes(), block.bytes()) {
                return Ok(Some(at));
            }
        }
        Ok(None)
    }

    fn block(&self, at: u64) -> Result<&Block, Fail> {
        match self.blocks.get(at as usize) {
            Some(block) => Ok(block),
            None => Err(Fail::from("there is no such block")),
        }
    }

    fn put(&mut self, at: u64, from: &Block) -> Result<(), Fail> {
        let place = at as usize;
        if place >= self.blocks.len() {
            return Err(Fail::from("there is no such block"));
        }
        let block = &mut self.blocks[place];
        block.copy_from(from);
        Ok(())
    }
}

// The head at a block, with three numbers that belong to it alone.
fn numbers_of(at: u32, total: u32, prev_tx: u64) -> TxHead {
    let at = at as u64;
    TxHead {
        id: at,
        total,
        prev_tx,
        next_block: at + 1,
        free_blocks: at + 10_000,
        nr_files: at + 20_000,
        next_oid: at + 30_000,
    }
}

// Each sector of a block begins and ends with the block's number.
fn number_sectors(b: &mut [u8], number: u64)
    requires { length b.old ≡ 4096 }
{
    for sector in 0..8usize {
        put64(b, 512 * sector, number);
        put64(b, 512 * sector + 504, number);
    }
}

// A record, whose id is its head's number. The pairs have to fit, and name no block 0.
fn spell_record(
    b: &mut [u8],
    head: u32,
    total: u32,
    serial: u32,
    next_block: u64,
    pairs: &[Pair],
) -> Result<(), Fail>
    requires { length b.old ≡ 4096 }
{
    if pairs.len() > 254 || !pairs.iter().all(|&(original, _)| original != 0) {
        return Err(Fail::from("the pairs do not fit into a record"));
    }
    write_record(b, head as u64, total, serial, next_block, pairs);
    Ok(())
}

fn set_field(b: &mut [u8], field: Field, value: u64)
    requires { length b.old ≡ 4096 }
{
    match field {
        Field::Byte(at) => b[at as usize % 4096] = (value & 0xff) as u8,
        Field::Newest => put64(b, 0, value),
        Field::Id => put64(b, 8, value),
        Field::Total => put32(b, 16, (value & 0xffff_ffff) as u32),
        Field::Serial => put32(b, 20, (value & 0xffff_ffff) as u32),
        Field::PrevTx | Field::NextBlock => put64(b, 24, value),
        Field::FirstRecord => put64(b, 32, value),
        Field::Original(i) => put64(b, 32 + 16 * (i as usize % 254), value),
        Field::Wandered(i) => put64(b, 40 + 16 * (i as usize % 254), value),
    }
}

// Do two blocks hold the same? Words are compared, since bytes take long where each step is checked.
fn is_same(one: &[u8], other: &[u8]) -> bool
    requires one { length one.now ≡ 4096 }
    requires other { length other.now ≡ 4096 }
{
    (0..512usize).all(|word| get64(one, 8 * word) == get64(other, 8 * word))
}

// Writes each block to its place.
fn write_all(dev: &mut MemoryDevice, blocks: &[Block]) -> Result<(), Fail>
    ensures { Goes (memory_state dev.old) (memory_state dev.new) }
{
    for (at, block) in blocks.iter().enumerate() {
        write_block(dev, at as u64, block)?;
    }
    Ok(())
}

fn write_block(dev: &mut MemoryDevice, at: u64, block: &Block) -> Result<(), Fail>
    ensures { Goes (memory_state dev.old) (memory_state dev.new) }
{
    if at >= dev.blocks()? {
        return Err(Fail::from("there is no such block"));
    }
    dev.write(BlockNo(at), block)?;
    Ok(())
}

/// Changes fields of the blocks of a device.
pub fn change(alloc: Global, dev: &mut MemoryDevice, changes: &[Change]) -> Result<(), Fail> {
    for &(at, field, value) in changes {
        if at >= dev.blocks()? {
            return Err(Fail::from("there is no such block"));
        }
        let mut block = dev.block(BlockNo(at)).copy(alloc)?;
        set_field(block.bytes_mut(), field, value);
        dev.write(BlockNo(at), &block)?;
    }
    Ok(())
}

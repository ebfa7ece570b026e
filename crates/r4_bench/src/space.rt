//! Atoms that take up space, and free blocks, on a new volume of 1,048,576 blocks.

ghost use Rattle.std.specs.Prelude.{◌≡◌, ◌≤◌, [], IfOk, OnOk};

use crate::fault::Fault;
use r4_base::{AtomNo, Block, BlockNo};
use r4_space::SpaceMap;
use std::alloc::Global;

/// How many blocks are free once all is charged, and once blocks are deferred too.
pub struct Free {
    pub before: u64,
    pub after: u64,
}

const BLOCKS: u64 = 1_048_576;

const FREE: u64 = 1_048_520;

/// So many atoms take turns at as many charges, of one cell without a block each, and then at as
/// many deferrals of blocks from block 22 on.
pub fn charge_all(alloc: Global, atoms: u32, calls: u32) -> Result<Free, Fault> {
    if atoms == 0 {
        return Err(Fault::Words);
    }
    let mut space = large(alloc)?;
    charge_each(alloc, &mut space, atoms, calls)?;
    let before = space.free();
    defer_each(alloc, &mut space, atoms, calls)?;
    let after = space.free();
    Ok(Free { before, after })
}

// So many charges, by the atoms in turn.
fn charge_each(alloc: Global, space: &mut SpaceMap, atoms: u32, calls: u32) -> Result<(), Fault>
    requires sealed { space.old.sealed ≡ [] }
    requires blocks { space.old.block_count ≡ 1048576 }
    requires some { 1 ≤ atoms }
    ensures { OnOk result (space.new.block_count ≡ 1048576) }
{
    for i in 0..calls {
        space.room(alloc, 1)?;
        if space.charge(AtomNo(i % atoms), 1, 1).is_err() {
            return Err(Fault::Unfit);
        }
    }
    Ok(())
}

// So many deferrals, by the atoms in turn.
fn defer_each(alloc: Global, space: &mut SpaceMap, atoms: u32, calls: u32) -> Result<(), Fault>
    requires blocks { space.old.block_count ≡ 1048576 }
    requires some { 1 ≤ atoms }
{
    if calls > 1_000_000 {
        return Err(Fault::Words);
    }
    for i in 0..calls {
        space.room(alloc, 1)?;
        space.defer(AtomNo(i % atoms), BlockNo(22 + u64::from(i)));
    }
    Ok(())
}

// A new volume of 1,048,576 blocks.
fn large(alloc: Global) -> Result<SpaceMap, Fault>
    ensures blocks { IfOk result (λ s. s.block_count ≡ 1048576) }
    ensures sealed { IfOk result (λ s. s.sealed ≡ []) }
{
    let mut bitmaps = Vec::new(alloc);
    for n in 0..33u64 {
        bitmaps.push(bitmap(alloc, n)?)?;
    }
    read(alloc, bitmaps.as_slice(), BLOCKS, FREE)
}

// Bitmap `n` of it.
fn bitmap(alloc: Global, n: u64) -> Result<Block, Fault> {
    let mut block = Block::zeroed(alloc)?;
    for (i, byte) in block.bytes_mut().iter_mut().enumerate() {
        if i == 4 {
            *byte = 1;
        }
        if (n == 0 && (4..7).contains(&i)) || (n == 32 && i >= 132) {
            *byte = 0xff;
        }
    }
    Ok(block)
}

// The space that these bitmaps tell.
fn read(alloc: Global, bitmaps: &[Block], blocks: u64, free: u64) -> Result<SpaceMap, Fault>
    ensures blocks { IfOk result (λ s. s.block_count ≡ blocks) }
    ensures sealed { IfOk result (λ s. s.sealed ≡ []) }
{
    if blocks < 64 || blocks > 1_048_576 {
        return Err(Fault::Unfit);
    }
    if bitmaps.len() as u64 != (blocks + 32_735) / 32_736 {
        return Err(Fault::Unfit);
    }
    match SpaceMap::read(alloc, bitmaps, blocks, free) {
        Ok(space) => Ok(space),
        Err(_) => Err(Fault::Unfit),
    }
}

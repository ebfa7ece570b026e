//! The superblocks and the bitmaps of an image (docs/layout.md).

ghost use Rattle.std.specs.Prelude.{◌≡◌, ◌<◌, ◌≤◌, IfOk, IfErr};
ghost use Rattle.r4_base.specs.Bitmap.{bitmap_block, bitmap_count};
ghost use Rattle.r4_base.specs.Layout.{IsLawfulSuper};
ghost use Rattle.r4_outside.specs.Device.{Rose};
ghost use Rattle.r4_replay.specs.Homes.{StaysWithin, home_in};
ghost use Rattle.r4_replay.specs.Reading.{Idles};
ghost use Rattle.r4_open.specs.declared.opened.Unopened.TheVariants.{Layout as Refused};
ghost use Rattle.r4_open.specs.Opening.{AreAccepted, AreRead, IsReadCause, Keeps, NamesHead, Opens};
ghost use Rattle.r4_open.specs.Opening.{ReadsSupers};

use crate::homes::{Homes, InPlace};
use crate::opened::{Opened, Unopened};
use r4_base::{
    Block, BlockNo, LayoutFault, MASTER_BLOCK, SUPER_BLOCK, Super40, bitmap_block, bitmap_count,
};
use r4_layout::{read_master, read_super};
use r4_outside::Device;
use r4_replay::Log;
use r4_space::find_fault;
use std::alloc::Global;

/// Opens the settled image of a device of `device_blocks` blocks, of which `log` says where its
/// blocks stand. What is read is the master superblock, the format superblock and each bitmap,
/// rising, each once, and nothing is written. The head is the one that the log was read with: the
/// journal header is not read again. `Layout` names the first fault in this order; `Failed` comes
/// only where the count of faults rose, and `Memory` where a growth was refused (docs/layout.md,
/// "Superblocks" and "Bitmaps").
///
/// Condition: the journal header of the settled image names the log's head, as it does where the
/// log is the one that `read_log` answered of this device.
pub fn open_image<D: Device>(
    alloc: Global,
    dev: &mut D,
    log: &Log,
    device_blocks: u64,
) -> Result<Opened, Unopened>
    requires blocks { device_blocks ≡ (D.state dev.old).blocks }
    requires more { 64 ≤ device_blocks }
    requires homes { StaysWithin device_blocks log.now }
    requires names { NamesHead (D.state dev.old) (home_in log.now.homes) log.now.head }
    ensures idles { Idles (D.state dev.old) (D.state dev.new) }
    ensures opens { Opens (D.state dev.old) (home_in log.now.homes) result (D.state dev.new) }
    ensures lawful { IfOk result (λ o. IsLawfulSuper device_blocks o.super40) }
    ensures accepted { IfOk result (λ o. AreAccepted o.super40 o.bitmaps.items) }
{
    open_at(alloc, dev, log, log.head(), device_blocks)
}

/// The same of the image that a device of `device_blocks` blocks has as it stands, as after a
/// replay of its log, which told the head.
///
/// Condition: the journal header of the device names `head`, as `replay` says of the head that it
/// answers.
pub fn open_in_place<D: Device>(
    alloc: Global,
    dev: &mut D,
    head: BlockNo,
    device_blocks: u64,
) -> Result<Opened, Unopened>
    requires blocks { device_blocks ≡ (D.state dev.old).blocks }
    requires more { 64 ≤ device_blocks }
    requires names { NamesHead (D.state dev.old) (λ b. b) head.0 }
    ensures idles { Idles (D.state dev.old) (D.state dev.new) }
    ensures opens { Opens (D.state dev.old) (λ b. b) result (D.state dev.new) }
    ensures lawful { IfOk result (λ o. IsLawfulSuper device_blocks o.super40) }
    ensures accepted { IfOk result (λ o. AreAccepted o.super40 o.bitmaps.items) }
{
    open_at(alloc, dev, &InPlace, head, device_blocks)
}

// The same of an image of which it is known where its blocks stand.
fn open_at<D: Device, H: Homes>(
    alloc: Global,
    dev: &mut D,
    homes: &H,
    head: BlockNo,
    device_blocks: u64,
) -> Result<Opened, Unopened>
    requires blocks { device_blocks ≡ (D.state dev.old).blocks }
    requires more { 64 ≤ device_blocks }
    requires homes { Keeps device_blocks (H.home homes.now) }
    requires names { NamesHead (D.state dev.old) (H.home homes.now) head.0 }
    ensures idles { Idles (D.state dev.old) (D.state dev.new) }
    ensures opens { Opens (D.state dev.old) (H.home homes.now) result (D.state dev.new) }
    ensures lawful { IfOk result (λ o. IsLawfulSuper device_blocks o.super40) }
    ensures accepted { IfOk result (λ o. AreAccepted o.super40 o.bitmaps.items) }
{
    let mut buffer = Block::zeroed(alloc)?;
    let super40 = read_supers(dev, homes, device_blocks, &mut buffer)?;
    let bitmaps = read_bitmaps(alloc, dev, homes, super40.block_count)?;
    if let Some(block) = find_fault(&bitmaps, super40.block_count, super40.free_blocks) {
        return Err(refused(BlockNo(block), LayoutFault::Bitmap));
    }
    Ok(Opened {
        super40,
        bitmaps,
        head,
    })
}

// The format superblock, where neither it nor the master superblock has a fault.
fn read_supers<D: Device, H: Homes>(
    dev: &mut D,
    homes: &H,
    device_blocks: u64,
    buffer: &mut Block,
) -> Result<Super40, Unopened>
    requires blocks { device_blocks ≡ (D.state dev.old).blocks }
    requires more { 64 ≤ device_blocks }
    requires homes { Keeps device_blocks (H.home homes.now) }
    ensures idles { Idles (D.state dev.old) (D.state dev.new) }
    ensures reads { ReadsSupers (D.state dev.old) (H.home homes.now) result (D.state dev.new) }
    ensures lawful { IfOk result (λ s. IsLawfulSuper device_blocks s) }
{
    dev.read(homes.home_of(MASTER_BLOCK), buffer)?;
    if let Err(fault) = read_master(buffer.bytes()) {
        return Err(refused(MASTER_BLOCK, fault));
    }
    dev.read(homes.home_of(SUPER_BLOCK), buffer)?;
    match read_super(buffer.bytes(), device_blocks) {
        Ok(found) => Ok(found),
        Err(fault) => Err(refused(SUPER_BLOCK, fault)),
    }
}

fn refused(block: BlockNo, fault: LayoutFault) -> Unopened
    ensures { result ≡ Refused block fault }
{
    Unopened::Layout { block, fault }
}

// The bitmaps of a volume of so many blocks.
fn read_bitmaps<D: Device, H: Homes>(
    alloc: Global,
    dev: &mut D,
    homes: &H,
    blocks: u64,
) -> Result<Vec<Block>, Unopened>
    requires within { blocks ≤ (D.state dev.old).blocks }
    requires more { 64 ≤ blocks }
    requires few { blocks ≤ 1048576 }
    requires homes { Keeps (D.state dev.old).blocks (H.home homes.now) }
    ensures idles { Idles (D.state dev.old) (D.state dev.new) }
    ensures read { IfOk result (λ v.
        AreRead (D.state dev.old) (H.home homes.now) (bitmap_count blocks) v.items) }
    ensures cause { IfErr result (λ e. IsReadCause (D.state dev.old) e (D.state dev.new)) }
{
    let mut bitmaps = Vec::new(alloc);
    for n in 0..bitmap_count(blocks) {
        let mut bitmap = Block::zeroed(alloc)?;
        dev.read(homes.home_of(bitmap_block(n)), &mut bitmap)?;
        bitmaps.push(bitmap)?;
    }
    Ok(bitmaps)
}

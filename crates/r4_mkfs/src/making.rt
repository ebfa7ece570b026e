//! The writes that make a volume, in their order.

ghost use Rattle.std.specs.Prelude.{◌≡◌, ◌+◌, ◌<◌, ℕ, OnOk, replicate};
ghost use Rattle.std.specs.Arc.{arc_value};
ghost use Rattle.r4_base.specs.Image.{AgreesOutside, IsLawful};
ghost use Rattle.r4_base.specs.Bitmap.{bitmap_count};
ghost use Rattle.r4_base.specs.Bytes.{number_bytes};
ghost use Rattle.r4_base.specs.Fresh.{IsFreshBut16, IsFreshImage, IsFreshNode};
ghost use Rattle.r4_base.specs.Stat.{stat_body};
ghost use Rattle.r4_base.specs.Volume.{root_attr};
ghost use Rattle.r4_outside.specs.Device.{Goes, HasCause, IsQuiet, Spares, TellsCrashes, TellsReads, Untouched};
ghost use Rattle.r4_mkfs.specs.Mkfs.{Answers, CountsBlocks, HasBitmaps, IsDeviceFault, IsLabel, IsRest, IsWritten, MakesInOrder, TakesCalls, calls_of, full_label, with_zeros};

use crate::bitmaps::fill_bitmap;
use crate::fault::MkfsFault;
use crate::nodes::{Nodes, fresh_nodes};
use crate::superblocks::{fill_master, fill_super, free_blocks};
use r4_base::{
    Block, FOOTER_BLOCK, FRESH_LEAF, FRESH_TWIG, HEADER_BLOCK, LEAST_BLOCKS, MASTER_BLOCK,
    MOST_BLOCKS, STATUS_BLOCK, SUPER_BLOCK, bitmap_block, bitmap_count, blank,
};
use r4_outside::{Device, Failed};
use std::alloc::Global;

/// How many blocks a volume has that was made, and how many of them are free.
#[derive(Clone, Copy, Debug, PartialEq, Eq)]
pub struct Made {
    pub blocks: u64,
    pub free: u64,
}

/// Makes an empty volume on a device, with a label of at most 16 bytes, none of them zero. It reads nothing, and writes
/// blocks 17 to 23 and each bitmap, once; syncs; writes the master superblock, block 16; and syncs. So a device on which
/// it was stopped has the master superblock that it had, or a whole volume but for that block (docs/volume.md, "A fresh
/// volume").
pub fn mkfs<D: Device>(alloc: Global, dev: &mut D, label: &[u8]) -> Result<Made, MkfsFault>
    requires { IsLabel label.now }
    ensures goes { Goes (D.state dev.old) (D.state dev.new) }
    ensures answers { Answers label.now (D.state dev.old) result (D.state dev.new) }

    // It writes those blocks, each once, and no others; nor does a crash leave anything else in others.
    ensures others { OnOk result (AgreesOutside (IsWritten (D.state dev.old).blocks) (D.state dev.old).seen (D.state dev.new).seen) }
    ensures spares { Spares (IsWritten (D.state dev.old).blocks) (D.state dev.old) (D.state dev.new) }
    ensures once { OnOk result (TakesCalls (calls_of (D.state dev.old).blocks) (D.state dev.old) (D.state dev.new)) }

    // At each moment of the call, whatever a crash leaves.
    ensures any_moment { IsQuiet (D.state dev.old) → MakesInOrder (D.state dev.old) (D.state dev.new) }

    // What was made is durable.
    ensures quiet { TellsCrashes (D.state dev.old) → OnOk result (IsQuiet (D.state dev.new)) }
{
    let blocks = lawful_blocks(dev)?;
    let Ok(nodes) = fresh_nodes(alloc) else {
        return Err(MkfsFault::Memory);
    };
    let Ok(mut buffer) = Block::zeroed(alloc) else {
        return Err(MkfsFault::Memory);
    };
    match write_volume(dev, blocks, label, &nodes, &mut buffer) {
        Ok(()) => Ok(Made {
            blocks,
            free: free_blocks(blocks),
        }),
        Err(Failed) => Err(device_fault(dev)),
    }
}

// The number of blocks of a device, where a volume may have as many.
fn lawful_blocks<D: Device>(dev: &mut D) -> Result<u64, MkfsFault>
    ensures goes { Goes (D.state dev.old) (D.state dev.new) }
    ensures idle { Untouched (D.state dev.old) (D.state dev.new) }
    ensures counts { CountsBlocks (D.state dev.old) result (D.state dev.new) }
{
    let Ok(blocks) = dev.blocks() else {
        return Err(device_fault(dev));
    };
    if blocks < LEAST_BLOCKS {
        return Err(MkfsFault::Small { blocks });
    }
    if blocks > MOST_BLOCKS {
        return Err(MkfsFault::Large { blocks });
    }
    Ok(blocks)
}

fn device_fault<D: Device>(dev: &D) -> MkfsFault
    ensures { IsDeviceFault (D.state dev.now) result }
{
    MkfsFault::Device {
        clock: dev.clock(),
        faults: dev.faults(),
    }
}

// Writes a whole volume, the master superblock last.
fn write_volume<D: Device>(
    dev: &mut D,
    blocks: u64,
    label: &[u8],
    nodes: &Nodes,
    buffer: &mut Block,
) -> Result<(), Failed>
    requires blocks { blocks ≡ (D.state dev.old).blocks }
    requires lawful { IsLawful blocks }
    requires label { IsLabel label.now }
    requires twig { IsFreshNode (arc_value nodes.now.twig).block 2 3 (number_bytes 8 23) }
    requires leaf { IsFreshNode (arc_value nodes.now.leaf).block 1 0 (stat_body root_attr) }
    ensures goes { Goes (D.state dev.old) (D.state dev.new) }
    ensures cause { HasCause (D.state dev.old) result (D.state dev.new) }
    ensures made { TellsReads (D.state dev.old) → OnOk result (IsFreshImage blocks (full_label label.now) (D.state dev.new).seen) }
    ensures any_moment { IsQuiet (D.state dev.old) → MakesInOrder (D.state dev.old) (D.state dev.new) }
    ensures quiet { TellsCrashes (D.state dev.old) → OnOk result (IsQuiet (D.state dev.new)) }
    ensures others { OnOk result (AgreesOutside (IsWritten blocks) (D.state dev.old).seen (D.state dev.new).seen) }
    ensures spares { Spares (IsWritten blocks) (D.state dev.old) (D.state dev.new) }
    ensures once { OnOk result (TakesCalls (calls_of blocks) (D.state dev.old) (D.state dev.new)) }
{
    write_rest(dev, blocks, nodes, buffer)?;
    dev.sync()?;
    fill_master(buffer, label);
    dev.write(MASTER_BLOCK, buffer)?;
    dev.sync()
}

// Writes all but the master superblock.
fn write_rest<D: Device>(
    dev: &mut D,
    blocks: u64,
    nodes: &Nodes,
    buffer: &mut Block,
) -> Result<(), Failed>
    requires blocks { blocks ≡ (D.state dev.old).blocks }
    requires lawful { IsLawful blocks }
    requires twig { IsFreshNode (arc_value nodes.now.twig).block 2 3 (number_bytes 8 23) }
    requires leaf { IsFreshNode (arc_value nodes.now.leaf).block 1 0 (stat_body root_attr) }
    ensures goes { Goes (D.state dev.old) (D.state dev.new) }
    ensures cause { HasCause (D.state dev.old) result (D.state dev.new) }
    ensures rest { TellsReads (D.state dev.old) → OnOk result (IsFreshBut16 blocks (D.state dev.new).seen) }
    ensures others { OnOk result (AgreesOutside (IsRest blocks) (D.state dev.old).seen (D.state dev.new).seen) }
    ensures spares { Spares (IsRest blocks) (D.state dev.old) (D.state dev.new) }
    ensures once { OnOk result (TakesCalls (bitmap_count blocks + 6) (D.state dev.old) (D.state dev.new)) }
{
    write_bitmaps(dev, blocks, buffer)?;
    fill_super(buffer, blocks);
    dev.write(SUPER_BLOCK, buffer)?;
    write_zeros(dev, buffer)?;
    dev.write(FRESH_TWIG, nodes.twig.block())?;
    dev.write(FRESH_LEAF, nodes.leaf.block())
}

// Writes zeros as the journal header, the journal footer and the status block.
fn write_zeros<D: Device>(dev: &mut D, buffer: &mut Block) -> Result<(), Failed>
    requires more { 23 < (D.state dev.old).blocks }
    ensures goes { Goes (D.state dev.old) (D.state dev.new) }
    ensures cause { HasCause (D.state dev.old) result (D.state dev.new) }
    ensures zeros { OnOk result ((D.state dev.new).seen ≡ with_zeros (D.state dev.old).seen) }
    ensures spares { (n : ℕ) → Spares (IsRest n) (D.state dev.old) (D.state dev.new) }
    ensures once { OnOk result (TakesCalls 3 (D.state dev.old) (D.state dev.new)) }
{
    fill_zeros(buffer);
    dev.write(HEADER_BLOCK, buffer)?;
    dev.write(FOOTER_BLOCK, buffer)?;
    dev.write(STATUS_BLOCK, buffer)
}

// Makes the block zero.
#[tactic(auto, using(r4_base::proofs::Lent::refilled_is))]
fn fill_zeros(block: &mut Block)
    ensures { block.new ≡ replicate 4096 0 }
{
    blank(block.bytes_mut());
}

// Writes each bitmap.
fn write_bitmaps<D: Device>(dev: &mut D, blocks: u64, buffer: &mut Block) -> Result<(), Failed>
    requires blocks { blocks ≡ (D.state dev.old).blocks }
    requires lawful { IsLawful blocks }
    ensures goes { Goes (D.state dev.old) (D.state dev.new) }
    ensures cause { HasCause (D.state dev.old) result (D.state dev.new) }
    ensures bitmaps { TellsReads (D.state dev.old) → OnOk result (HasBitmaps blocks (bitmap_count blocks) (D.state dev.new).seen) }
    ensures others { OnOk result (AgreesOutside (IsRest blocks) (D.state dev.old).seen (D.state dev.new).seen) }
    ensures spares { Spares (IsRest blocks) (D.state dev.old) (D.state dev.new) }
    ensures once { OnOk result (TakesCalls (bitmap_count blocks) (D.state dev.old) (D.state dev.new)) }
{
    for n in 0..bitmap_count(blocks) {
        fill_bitmap(buffer, blocks, n);
        dev.write(bitmap_block(n), buffer)?;
    }
    Ok(())
}

//! The whole replay.

ghost use Rattle.std.specs.Prelude.{◌≡◌, ◌≤◌, OnOk};
ghost use Rattle.r4_outside.specs.Device.{Goes, IsQuiet};
ghost use Rattle.r4_replay.specs.Replay.{Replayed, SettlesAlways, Works};

use crate::chain::read_whole;
use crate::fault::{ReplayFault, Stop};
use crate::place::put_txns;
use crate::size::{fault_of, lawful_blocks};
use r4_base::{Block, BlockNo};
use r4_outside::Device;
use std::alloc::Global;

/// The log that was put in place: of how many transactions, and the head that the journal header names, then as before.
#[derive(Clone, Copy, Debug, PartialEq, Eq)]
pub struct PlacedLog {
    pub count: u64,
    pub head: BlockNo,
}

/// Puts the transactions of the log in place, the oldest first. Nothing is written before the whole log was looked at
/// (docs/layout.md, "Replay"). The head is known from reading the log: no block of the journal is
/// read for it.
pub fn replay<D: Device>(alloc: Global, dev: &mut D) -> Result<PlacedLog, ReplayFault>
    ensures goes { Goes (D.state dev.old) (D.state dev.new) }
    ensures replayed { Replayed (D.state dev.old) result (D.state dev.new) }

    // A crash at any moment of the call leaves an image that settles as before, but for the footer's block.
    ensures any_moment { IsQuiet (D.state dev.old) → SettlesAlways (D.state dev.old) (D.state dev.new) }
    ensures quiet { IsQuiet (D.state dev.old) → OnOk result (IsQuiet (D.state dev.new)) }
{
    let blocks = lawful_blocks(dev)?;
    match read_and_put(alloc, dev, blocks) {
        Ok(placed) => Ok(placed),
        Err(stop) => Err(fault_of(dev, stop)),
    }
}

// Reads the log of a device of a lawful size, and puts it in place.
fn read_and_put<D: Device>(alloc: Global, dev: &mut D, blocks: u64) -> Result<PlacedLog, Stop>
    requires blocks { blocks ≡ (D.state dev.old).blocks }
    requires more { 64 ≤ blocks }
    ensures goes { Goes (D.state dev.old) (D.state dev.new) }
    ensures works { Works (D.state dev.old) result (D.state dev.new) }
    ensures any_moment { IsQuiet (D.state dev.old) → SettlesAlways (D.state dev.old) (D.state dev.new) }
    ensures quiet { IsQuiet (D.state dev.old) → OnOk result (IsQuiet (D.state dev.new)) }
{
    let mut buffer = Block::zeroed(alloc)?;
    let mut footer = Block::zeroed(alloc)?;
    let whole = read_whole(alloc, dev, blocks, &mut footer, &mut buffer)?;
    put_txns(dev, &whole.txns, &mut footer, &mut buffer)?;
    Ok(PlacedLog {
        count: whole.txns.len() as u64,
        head: BlockNo(whole.head),
    })
}

//! What the log says of the volume, without putting it in place.

ghost use Rattle.std.specs.Prelude.{◌≡◌, ℕ, ◌≤◌, IfOk, OnOk};
ghost use Rattle.r4_base.specs.Chain.{chain_pairs, home, home_from};
ghost use Rattle.r4_replay.specs.Txns.{chain_shown};
ghost use Rattle.r4_replay.specs.Reading.{Idles};
ghost use Rattle.r4_replay.specs.Homes.{home_in, LooksUp, Looked, StaysWithin};

use crate::chain::read_whole;
use crate::fault::{ReplayFault, Stop};
use crate::size::{fault_of, lawful_blocks};
use crate::txn::Txn;
use r4_base::{Block, BlockNo, Memory};
use r4_outside::Device;
use std::alloc::Global;
use std::collections::BTreeMap;

/// The log of an image: where the content of each block stands, how many transactions are not in place, and the head
/// that the journal header names.
#[derive(Debug, Drop)]
pub struct Log {
    homes: BTreeMap<u64, u64>,
    count: u64,
    head: u64,
}

impl Log {
    /// The block where the settled content of a block stands: the newest copy that the log has of it, or the block
    /// itself.
    pub fn home(&self, at: BlockNo) -> BlockNo
        ensures { result.0 ≡ home_in self.now.homes at.0 }
    {
        let home = self.homes.get(&at.0).copied();
        BlockNo(home.unwrap_or(at.0))
    }

    /// How many transactions are not in place.
    pub fn count(&self) -> u64
        ensures { result ≡ self.now.count }
    {
        self.count
    }

    /// The head that the journal header names, the newest of the log.
    pub fn head(&self) -> BlockNo
        ensures { result.0 ≡ self.now.head }
    {
        BlockNo(self.head)
    }
}

/// Reads the log, and writes nothing. It is refused as `replay` refuses it. The home of a block of the device is a block
/// of the device.
pub fn read_log<D: Device>(alloc: Global, dev: &mut D) -> Result<Log, ReplayFault>
    ensures idles { Idles (D.state dev.old) (D.state dev.new) }
    ensures reads { LooksUp (D.state dev.old) result (D.state dev.new) }
    ensures within { IfOk result (λ log. StaysWithin (D.state dev.old).blocks log) }
{
    let blocks = lawful_blocks(dev)?;
    match look_up(alloc, dev, blocks) {
        Ok(log) => Ok(log),
        Err(stop) => Err(fault_of(dev, stop)),
    }
}

// The log of a device of a lawful size.
fn look_up<D: Device>(alloc: Global, dev: &mut D, blocks: u64) -> Result<Log, Stop>
    requires blocks { blocks ≡ (D.state dev.old).blocks }
    requires more { 64 ≤ blocks }
    ensures idles { Idles (D.state dev.old) (D.state dev.new) }
    ensures looked { Looked (D.state dev.old) result (D.state dev.new) }
    ensures within { IfOk result (λ log. StaysWithin (D.state dev.old).blocks log) }
{
    let mut buffer = Block::zeroed(alloc)?;
    let mut footer = Block::zeroed(alloc)?;
    let whole = read_whole(alloc, dev, blocks, &mut footer, &mut buffer)?;
    Ok(Log {
        homes: homes_of(alloc, &whole.txns)?,
        count: whole.txns.len() as u64,
        head: whole.head,
    })
}

// Where the content of each block stands that these transactions have a copy of.
fn homes_of(alloc: Global, txns: &[Txn]) -> Result<BTreeMap<u64, u64>, Memory>
    ensures { IfOk result (λ homes. (b : ℕ) → home_in homes b ≡ home (chain_pairs (chain_shown txns.now)) b) }
{
    let mut homes = BTreeMap::new(alloc);
    for txn in txns {
        add_homes(&mut homes, &txn.pairs)?;
    }
    Ok(homes)
}

fn add_homes(homes: &mut BTreeMap<u64, u64>, pairs: &[(u64, u64)]) -> Result<(), Memory>
    ensures { OnOk result ((b : ℕ) → home_in homes.new b ≡ home_from pairs.now b (home_in homes.old b)) }
{
    for &(original, wandered) in pairs {
        homes.insert(original, wandered)?;
    }
    Ok(())
}

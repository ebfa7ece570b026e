//! The whole log: all heads, then each transaction, and no block that is both put in place and kept.

ghost use Rattle.std.specs.Prelude.{◌≡◌, ◌<◌, IfOk, OnOk, All};
ghost use Rattle.r4_base.specs.Refusal.{txns_at};
ghost use Rattle.r4_replay.specs.Reading.{Idles, Finds};
ghost use Rattle.r4_replay.specs.Heads.{heads_shown};
ghost use Rattle.r4_base.specs.Image.{block_at};
ghost use Rattle.r4_outside.specs.Device.{TellsReads};
ghost use Rattle.r4_replay.specs.Chains.{chain_of, InRangeAll, ReadsLog, ReadsWhole};

use crate::fault::Stop;
use crate::heads::{Head, read_heads};
use crate::overlap::smallest_overlap;
use crate::txn::{Txn, read_txn};
use r4_base::{Block, BlockNo, FOOTER_BLOCK, HEADER_BLOCK, LogFault};
use r4_logfmt::{read_footer, read_header};
use r4_outside::Device;
use std::alloc::Global;

/// The log as it was read: its transactions, the oldest first, and the head that the journal header names.
#[derive(Debug, Drop)]
pub struct Whole {
    pub txns: Vec<Txn>,
    pub head: u64,
}

/// The transactions of the log, and the head that its header names. `footer` holds the footer's block then.
pub fn read_whole<D: Device>(
    alloc: Global,
    dev: &mut D,
    blocks: u64,
    footer: &mut Block,
    buffer: &mut Block,
) -> Result<Whole, Stop>
    requires blocks { blocks ≡ (D.state dev.old).blocks }
    requires more { 20 < blocks }
    ensures idles { Idles (D.state dev.old) (D.state dev.new) }
    ensures reads { ReadsWhole (D.state dev.old) result (D.state dev.new) }
    ensures footer { OnOk result (TellsReads (D.state dev.old) → footer.new ≡ block_at (D.state dev.old).seen 20) }
    ensures in_range { IfOk result (λ whole. InRangeAll blocks whole.txns.items) }
{
    dev.read(HEADER_BLOCK, buffer)?;
    let head = read_header(buffer.bytes()).last;
    dev.read(FOOTER_BLOCK, footer)?;
    let flushed = read_footer(footer.bytes()).last;
    let txns = read_chain(alloc, dev, blocks, head, flushed, buffer)?;
    Ok(Whole { txns, head })
}

// The transactions between the numbers of the journal header and footer, the oldest first.
fn read_chain<D: Device>(
    alloc: Global,
    dev: &mut D,
    blocks: u64,
    header: u64,
    footer: u64,
    buffer: &mut Block,
) -> Result<Vec<Txn>, Stop>
    requires { blocks ≡ (D.state dev.old).blocks }
    ensures idles { Idles (D.state dev.old) (D.state dev.new) }
    ensures reads { ReadsLog header footer (D.state dev.old) result (D.state dev.new) }
    ensures in_range { IfOk result (λ txns. InRangeAll blocks txns.items) }
{
    let heads = read_heads(alloc, dev, blocks, header, footer, buffer)?;
    let txns = read_txns(alloc, dev, blocks, heads, buffer)?;
    if let Some(block) = smallest_overlap(alloc, &txns)? {
        return Err(Stop::Log {
            block,
            fault: LogFault::Overlap,
        });
    }
    Ok(txns)
}

// The transactions of heads that are given the newest first, the oldest first.
fn read_txns<D: Device>(
    alloc: Global,
    dev: &mut D,
    blocks: u64,
    mut heads: Vec<Head>,
    buffer: &mut Block,
) -> Result<Vec<Txn>, Stop>
    requires { blocks ≡ (D.state dev.old).blocks }
    ensures idles { Idles (D.state dev.old) (D.state dev.new) }
    ensures finds { Finds chain_of (D.state dev.old) (txns_at blocks (D.state dev.old).seen (heads_shown heads)) result (D.state dev.new) }
    ensures in_range { IfOk result (λ txns. InRangeAll blocks txns.items) }
{
    let mut txns = Vec::new(alloc);
    while let Some(head) = heads.pop() {
        txns.push(read_txn(alloc, dev, blocks, head, buffer)?)?;
    }
    Ok(txns)
}

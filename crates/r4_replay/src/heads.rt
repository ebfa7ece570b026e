//! The heads of the log, from the newest back.

ghost use Rattle.std.specs.Prelude.{◌≡◌, length, OnOk, Some, All};
ghost use Rattle.r4_base.specs.Log.{head_of};
ghost use Rattle.r4_base.specs.Chain.{InRange};
ghost use Rattle.r4_base.specs.Refusal.{is_log_block, checked_head, head_at, heads_from};
ghost use Rattle.r4_replay.specs.Reading.{Idles, Finds, as_stop};

use crate::fault::Stop;
use r4_base::{Block, BlockNo, FIRST_PLACE, HEADER_BLOCK, LogFault, MOST_HEADS, TxHead};
use r4_logfmt::read_head;
use r4_outside::Device;
use std::alloc::Global;

/// A transaction's head: its block, and what it says.
#[derive(Clone, Copy, Debug, PartialEq, Eq)]
pub struct Head {
    pub at: u64,
    pub says: TxHead,
}

/// Is this the number of a block that the log or a copy may stand in?
pub fn is_in_log(blocks: u64, at: u64) -> bool
    ensures { result ≡ is_log_block blocks at }
{
    at >= FIRST_PLACE && at < blocks
}

ghost use Rattle.r4_replay.specs.Heads.{heads_shown};

/// The heads from a number back, the newest first, until the footer's number.
pub fn read_heads<D: Device>(
    alloc: Global,
    dev: &mut D,
    blocks: u64,
    header: u64,
    footer: u64,
    buffer: &mut Block,
) -> Result<Vec<Head>, Stop>
    requires { blocks ≡ (D.state dev.old).blocks }
    ensures idles { Idles (D.state dev.old) (D.state dev.new) }
    ensures finds { Finds heads_shown (D.state dev.old) (heads_from 8 blocks (D.state dev.old).seen footer 19 header) result (D.state dev.new) }
{
    let mut heads = Vec::new(alloc);
    let mut holder = HEADER_BLOCK.0;
    let mut at = header;
    for _ in 0..MOST_HEADS {
        if at == footer {
            return Ok(heads);
        }
        let says = read_head_at(dev, blocks, holder, at, buffer)?;
        heads.push(Head { at, says })?;
        holder = at;
        at = says.prev_tx;
    }
    if at == footer {
        return Ok(heads);
    }
    read_head_at(dev, blocks, holder, at, buffer)?;
    Err(Stop::Log {
        block: at,
        fault: LogFault::Long,
    })
}

// The head at a number, which stands in the block `holder`.
fn read_head_at<D: Device>(
    dev: &mut D,
    blocks: u64,
    holder: u64,
    at: u64,
    buffer: &mut Block,
) -> Result<TxHead, Stop>
    requires { blocks ≡ (D.state dev.old).blocks }
    ensures idles { Idles (D.state dev.old) (D.state dev.new) }
    ensures finds { Finds (λ h. h) (D.state dev.old) (head_at blocks (D.state dev.old).seen holder at) result (D.state dev.new) }
{
    if !is_in_log(blocks, at) {
        return Err(Stop::Log {
            block: holder,
            fault: LogFault::Range,
        });
    }
    dev.read(BlockNo(at), buffer)?;
    judge_head(blocks, at, buffer.bytes())
}

fn judge_head(blocks: u64, at: u64, b: &[u8]) -> Result<TxHead, Stop>
    requires { length b.now ≡ 4096 }
    ensures { result ≡ as_stop (checked_head blocks at (head_of b.now)) }
{
    let Some(head) = read_head(b) else {
        return Err(Stop::Log {
            block: at,
            fault: LogFault::HeadMagic,
        });
    };
    if head.total < 2 || head.total as u64 > blocks {
        return Err(Stop::Log {
            block: at,
            fault: LogFault::Total,
        });
    }
    Ok(head)
}

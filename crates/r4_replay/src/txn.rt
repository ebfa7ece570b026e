//! One transaction of the log: its records, in order, and their pairs.

ghost use Rattle.std.specs.Prelude.{◌≡◌, ℕ, length, OnOk, IfOk, All};
ghost use Rattle.r4_base.specs.Log.{record_of};
ghost use Rattle.r4_base.specs.Chain.{PairInRange};
ghost use Rattle.r4_base.specs.Refusal.{is_original_number, checked_record, record_at, txn_at};
ghost use Rattle.r4_logfmt.specs.View.{view_record};
ghost use Rattle.r4_replay.specs.Reading.{Idles, Finds};
ghost use Rattle.r4_replay.specs.Heads.{head_shown};
ghost use Rattle.r4_replay.specs.Txns.{txn_shown, TakesPairs, JudgesRecord, FindsRecord};

use crate::fault::Stop;
use crate::heads::{Head, is_in_log};
use r4_base::{Block, BlockNo, FIRST_BITMAP, LogFault, SUPER_BLOCK};
use r4_logfmt::{LogRecord, read_record};
use r4_outside::Device;
use std::alloc::Global;

/// A transaction: its head, the blocks of its records, and all its pairs of an original and a wandered block.
#[derive(Debug, Drop)]
pub struct Txn {
    pub head: Head,
    pub records: Vec<u64>,
    pub pairs: Vec<(u64, u64)>,
}

/// Reads the records of a head.
pub fn read_txn<D: Device>(
    alloc: Global,
    dev: &mut D,
    blocks: u64,
    head: Head,
    buffer: &mut Block,
) -> Result<Txn, Stop>
    requires { blocks ≡ (D.state dev.old).blocks }
    ensures idles { Idles (D.state dev.old) (D.state dev.new) }
    ensures finds { Finds txn_shown (D.state dev.old) (txn_at blocks (D.state dev.old).seen (head_shown head)) result (D.state dev.new) }
    ensures in_range { IfOk result (λ t. All (PairInRange blocks) t.pairs.items) }
{
    let mut records = Vec::new(alloc);
    let mut pairs = Vec::new(alloc);
    let mut holder = head.at;
    let mut at = head.says.next_block;
    for serial in 1..head.says.total {
        let next = read_record_at(
            dev,
            blocks,
            head.says.id,
            serial,
            holder,
            at,
            &mut pairs,
            buffer,
        )?;
        records.push(at)?;
        holder = at;
        at = next;
    }
    if at != head.at {
        return Err(Stop::Log {
            block: holder,
            fault: LogFault::Circle,
        });
    }
    Ok(Txn {
        head,
        records,
        pairs,
    })
}

// The record at a number, which stands in the block `holder`: its pairs are taken, and the next number is answered.
fn read_record_at<D: Device>(
    dev: &mut D,
    blocks: u64,
    id: u64,
    serial: u32,
    holder: u64,
    at: u64,
    pairs: &mut Vec<(u64, u64)>,
    buffer: &mut Block,
) -> Result<u64, Stop>
    requires { blocks ≡ (D.state dev.old).blocks }
    ensures idles { Idles (D.state dev.old) (D.state dev.new) }
    ensures finds { FindsRecord (D.state dev.old) (record_at blocks (D.state dev.old).seen id serial (length pairs.old.items) holder at) pairs.old.items pairs.new.items result (D.state dev.new) }
    ensures in_range { All (PairInRange blocks) pairs.old.items → OnOk result (All (PairInRange blocks) pairs.new.items) }
{
    if !is_in_log(blocks, at) {
        return Err(Stop::Log {
            block: holder,
            fault: LogFault::Range,
        });
    }
    dev.read(BlockNo(at), buffer)?;
    judge_record(blocks, id, serial, at, buffer.bytes(), pairs)
}

fn judge_record(
    blocks: u64,
    id: u64,
    serial: u32,
    at: u64,
    b: &[u8],
    pairs: &mut Vec<(u64, u64)>,
) -> Result<u64, Stop>
    requires { length b.now ≡ 4096 }
    ensures judges { JudgesRecord (checked_record blocks id serial (length pairs.old.items) at (record_of b.now)) pairs.old.items pairs.new.items result }
    ensures in_range { All (PairInRange blocks) pairs.old.items → OnOk result (All (PairInRange blocks) pairs.new.items) }
{
    let Some(record) = read_record(b) else {
        return Err(Stop::Log {
            block: at,
            fault: LogFault::RecordMagic,
        });
    };
    if record.id != id {
        return Err(Stop::Log {
            block: at,
            fault: LogFault::Id,
        });
    }
    if record.serial != serial {
        return Err(Stop::Log {
            block: at,
            fault: LogFault::Serial,
        });
    }
    take_pairs(blocks, at, &record, pairs)?;
    Ok(record.next_block)
}

// Takes the pairs of a record, which are all in range, and not too many with those before.
fn take_pairs(
    blocks: u64,
    at: u64,
    says: &LogRecord<'_>,
    pairs: &mut Vec<(u64, u64)>,
) -> Result<(), Stop>
    ensures { TakesPairs blocks at (view_record says.now).pairs pairs.old.items pairs.new.items result }
{
    for i in 0..says.pairs() {
        let (original, wandered) = says.pair(i);
        if !is_original(blocks, original) || !is_in_log(blocks, wandered) {
            return Err(Stop::Log {
                block: at,
                fault: LogFault::Range,
            });
        }
        pairs.push((original, wandered))?;
    }
    if pairs.len() as u64 > blocks {
        return Err(Stop::Log {
            block: at,
            fault: LogFault::Pairs,
        });
    }
    Ok(())
}

// Is this the number of a block that a pair may put in place?
fn is_original(blocks: u64, at: u64) -> bool
    ensures { result ≡ is_original_number blocks at }
{
    at == SUPER_BLOCK.0 || at == FIRST_BITMAP.0 || is_in_log(blocks, at)
}

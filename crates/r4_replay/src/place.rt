//! Transactions put in place: their copies, and then the footer that names them, each made durable before the next.

ghost use Rattle.std.specs.Prelude.{◌≡◌, ◌<◌, length, slice_set, OnOk, All};
ghost use Rattle.r4_base.specs.Bytes.{put_all};
ghost use Rattle.r4_base.specs.Image.{block_at, put_pairs};
ghost use Rattle.r4_base.specs.Log.{footer_fields, footer_of};
ghost use Rattle.r4_base.specs.Chain.{PairInRange, HasLog, SettlesTo, is_footer, chain_pairs};
ghost use Rattle.r4_outside.specs.Device.{Goes, HasCause, TellsReads, Spares, IsQuiet, LeavesOnly, Untouched};
ghost use Rattle.r4_replay.specs.Txns.{txn_shown, chain_shown};
ghost use Rattle.r4_replay.specs.Chains.{InRangeAll};
ghost use Rattle.r4_replay.specs.Replay.{footer_naming};
ghost use Rattle.r4_replay.specs.Placing.{IsOriginalOf, LeftByPut, IsPlaced};

use crate::txn::Txn;
use r4_base::{Block, BlockNo, FOOTER_BLOCK, Footer};
use r4_logfmt::write_footer;
use r4_outside::{Device, Failed};

/// Puts transactions in place, the oldest first, and lets the footer's block name the newest. `footer` holds what that
/// block holds.
pub fn put_txns<D: Device>(
    dev: &mut D,
    txns: &[Txn],
    footer: &mut Block,
    buffer: &mut Block,
) -> Result<(), Failed>
    requires in_range { InRangeAll (D.state dev.old).blocks txns.now }
    requires more { 20 < (D.state dev.old).blocks }
    ensures goes { Goes (D.state dev.old) (D.state dev.new) }
    ensures cause { HasCause (D.state dev.old) result (D.state dev.new) }
    ensures idle { length txns.now ≡ 0 → Untouched (D.state dev.old) (D.state dev.new) }
    ensures placed { TellsReads (D.state dev.old) → HasLog (D.state dev.old).blocks (D.state dev.old).seen (chain_shown txns.now) → footer.old ≡ block_at (D.state dev.old).seen 20
        → OnOk result (IsPlaced (D.state dev.old) (chain_shown txns.now) (D.state dev.new)) }

    // A crash at any moment leaves what settles as before, but for the footer's block.
    ensures any_moment { IsQuiet (D.state dev.old) → HasLog (D.state dev.old).blocks (D.state dev.old).seen (chain_shown txns.now)
        → LeavesOnly (D.state dev.old) (D.state dev.new) (SettlesTo (D.state dev.old).blocks is_footer (put_pairs (chain_pairs (chain_shown txns.now)) (D.state dev.old).seen)) }
    ensures quiet { IsQuiet (D.state dev.old) → OnOk result (IsQuiet (D.state dev.new)) }
{
    for txn in txns {
        put_txn(dev, txn, footer, buffer)?;
    }
    Ok(())
}

// Puts one transaction in place.
fn put_txn<D: Device>(
    dev: &mut D,
    txn: &Txn,
    footer: &mut Block,
    buffer: &mut Block,
) -> Result<(), Failed>
    requires in_range { All (PairInRange (D.state dev.old).blocks) txn.now.pairs.items }
    requires more { 20 < (D.state dev.old).blocks }
    ensures goes { Goes (D.state dev.old) (D.state dev.new) }
    ensures cause { HasCause (D.state dev.old) result (D.state dev.new) }
    ensures spelled { footer.new ≡ put_all (footer_fields (footer_naming (txn_shown txn.now))) 0 footer.old }
    ensures named { (footer_of footer.new).last ≡ txn.now.head.at }
    ensures placed { TellsReads (D.state dev.old) → OnOk result ((D.state dev.new).seen ≡ slice_set (put_pairs txn.now.pairs.items (D.state dev.old).seen) 20 footer.new) }
    ensures any_moment { IsQuiet (D.state dev.old) → LeavesOnly (D.state dev.old) (D.state dev.new) (LeftByPut txn.now.pairs.items footer.new (D.state dev.old).seen) }
    ensures quiet { IsQuiet (D.state dev.old) → OnOk result (IsQuiet (D.state dev.new)) }
{
    name_in(footer, txn);
    copy_pairs(dev, &txn.pairs, buffer)?;
    dev.sync()?;
    dev.write(FOOTER_BLOCK, footer)?;
    dev.sync()
}

// Lets the footer name a transaction's head, with the head's three numbers.
#[tactic(auto, using(r4_base::proofs::Lent::refilled_is))]
fn name_in(footer: &mut Block, txn: &Txn)
    ensures spelled { footer.new ≡ put_all (footer_fields (footer_naming (txn_shown txn.now))) 0 footer.old }
    ensures named { (footer_of footer.new).last ≡ txn.now.head.at }
{
    let says = txn.head.says;
    let named = Footer {
        last: txn.head.at,
        free_blocks: says.free_blocks,
        nr_files: says.nr_files,
        next_oid: says.next_oid,
    };
    write_footer(footer.bytes_mut(), &named);
}

// Copies each wandered block to its original, in order.
fn copy_pairs<D: Device>(
    dev: &mut D,
    pairs: &[(u64, u64)],
    buffer: &mut Block,
) -> Result<(), Failed>
    requires in_range { All (PairInRange (D.state dev.old).blocks) pairs.now }
    requires more { 20 < (D.state dev.old).blocks }
    ensures goes { Goes (D.state dev.old) (D.state dev.new) }
    ensures cause { HasCause (D.state dev.old) result (D.state dev.new) }
    ensures copied { TellsReads (D.state dev.old) → OnOk result ((D.state dev.new).seen ≡ put_pairs pairs.now (D.state dev.old).seen) }
    ensures spares { Spares (IsOriginalOf pairs.now) (D.state dev.old) (D.state dev.new) }
{
    for &(original, wandered) in pairs {
        copy_one(dev, BlockNo(original), BlockNo(wandered), buffer)?;
    }
    Ok(())
}

fn copy_one<D: Device>(
    dev: &mut D,
    original: BlockNo,
    wandered: BlockNo,
    buffer: &mut Block,
) -> Result<(), Failed>
    requires original { original.0 < (D.state dev.old).blocks }
    requires wandered { wandered.0 < (D.state dev.old).blocks }
    ensures goes { Goes (D.state dev.old) (D.state dev.new) }
    ensures cause { HasCause (D.state dev.old) result (D.state dev.new) }
    ensures copied { TellsReads (D.state dev.old) → OnOk result ((D.state dev.new).seen
        ≡ slice_set (D.state dev.old).seen original.0 (block_at (D.state dev.old).seen wandered.0)) }
    ensures spares { Spares (λ b. b ≡ original.0) (D.state dev.old) (D.state dev.new) }
{
    dev.read(wandered, buffer)?;
    dev.write(original, buffer)?;
    Ok(())
}

//! Whether a block is both put in place and kept by the log.

ghost use Rattle.std.specs.Prelude.{◌≡◌, min, map, IfOk, OnOk, MatchOption};
ghost use Rattle.r4_base.specs.Refusal.{IsOverlap};
ghost use Rattle.r4_replay.specs.Txns.{chain_shown};
ghost use Rattle.r4_replay.specs.Overlaps.{IsApart, Adds, IsSmallestIn};

use crate::txn::Txn;
use r4_base::Memory;
use std::alloc::Global;
use std::collections::BTreeSet;

/// The smallest original that is also a head, a record or a wandered block of these transactions.
pub fn smallest_overlap(alloc: Global, txns: &[Txn]) -> Result<Option<u64>, Memory>
    ensures { IfOk result (λ o. MatchOption o (IsApart (chain_shown txns.now)) (IsOverlap (chain_shown txns.now))) }
{
    let kept = kept_blocks(alloc, txns)?;
    let mut smallest = None;
    for txn in txns {
        smallest = smallest_in(&txn.pairs, &kept, smallest);
    }
    Ok(smallest)
}

ghost use Rattle.r4_replay.specs.Overlaps.{HasKept};

// The heads, the records and the wandered blocks.
fn kept_blocks(alloc: Global, txns: &[Txn]) -> Result<BTreeSet<u64>, Memory>
    ensures { IfOk result (HasKept (chain_shown txns.now)) }
{
    let mut kept = BTreeSet::new(alloc);
    for txn in txns {
        kept.insert(txn.head.at)?;
        keep(&mut kept, &txn.records)?;
        keep_wandered(&mut kept, &txn.pairs)?;
    }
    Ok(kept)
}

fn keep(kept: &mut BTreeSet<u64>, blocks: &[u64]) -> Result<(), Memory>
    ensures { OnOk result (Adds kept.old blocks.now kept.new) }
{
    for &block in blocks {
        kept.insert(block)?;
    }
    Ok(())
}

fn keep_wandered(kept: &mut BTreeSet<u64>, pairs: &[(u64, u64)]) -> Result<(), Memory>
    ensures { OnOk result (Adds kept.old (map (λ p. p.1) pairs.now) kept.new) }
{
    for &(_, wandered) in pairs {
        kept.insert(wandered)?;
    }
    Ok(())
}

// The smallest original of these pairs that is kept, or the one that was found before, if that is smaller.
fn smallest_in(pairs: &[(u64, u64)], kept: &BTreeSet<u64>, before: Option<u64>) -> Option<u64>
    ensures { IsSmallestIn kept.now (map (λ p. p.0) pairs.now) before result }
{
    let mut smallest = before;
    for &(original, _) in pairs {
        if kept.contains(&original) {
            smallest = Some(smaller(smallest, original));
        }
    }
    smallest
}

fn smaller(before: Option<u64>, block: u64) -> u64
    ensures { MatchOption before (result ≡ block) (λ found. result ≡ min found block) }
{
    match before {
        None => block,
        Some(found) => found.min(block),
    }
}

//! The writes of a commit, made from its plan.

ghost use Rattle.std.specs.Prelude.{◌≡◌, ◌≢◌, ◌++◌, ◌+◌, ◌*◌, ◌<◌, ◌≤◌, ◌∷◌, [], ℕ, length, map, take, drop, All, IfOk, OnOk, Some};
ghost use Rattle.std.specs.List.Sorted.{IsPermutation, IsNonDecreasingBy};
ghost use Rattle.r4_base.specs.Image.{IsBlock};
ghost use Rattle.r4_base.specs.Log.{head_of, head_block, record_of, record_block, header_of, footer_of};
ghost use Rattle.r4_wander.specs.LogPlan.{pairs, originals_of, placed_writes, number_after, total, head_says, head_write, record_says, record_writes, header_says, footer_says, header_bytes, footer_bytes};

use crate::entry::{Entry, What};
use crate::plan::{LogPlan, WanderedCopies};
use r4_base::{Block, BlockNo, Footer, Header, Memory, RECORD_PAIRS, TxHead};
use r4_logfmt::{write_footer, write_head, write_header, write_record};
use std::alloc::Global;
use std::marker::Model;

/// A wandered copy whose block is shared by the copy and its home.
#[derive(Drop)]
pub(crate) struct Shared {
    original: u64,
    copy: u64,
    what: What,
}

impl Model for Shared {
    ghost use Rattle.r4_wander.specs.Entries.{bytes_of};
    ghost use Rattle.r4_wander.specs.Seen.{Copy};

    ghost Value = { Copy };

    ghost view = { λ s. record { original = s.original; copy = s.copy; block = bytes_of s.what } };
}

/// The pairs of the transaction, in the order of the copies.
pub(crate) fn make_pairs(alloc: Global, plan: &LogPlan) -> Result<Vec<(u64, u64)>, Memory>
    ensures { IfOk result (λ v. v.items ≡ pairs plan.now) }
{
    let copies = plan.wandered.as_slice();
    let mut made = Vec::with_capacity(alloc, copies.len())?;
    for copy in copies {
        made.push((copy.original.0, copy.copy.0))?;
    }
    Ok(made)
}

/// The journal header that names the head.
#[tactic(auto, using(r4_base::proofs::Lent::refilled_is), unfolding(crate::specs::LogPlan::header_bytes))]
pub(crate) fn make_header(alloc: Global, plan: &LogPlan) -> Result<Block, Memory>
    ensures spelled { IfOk result (λ b. b ≡ header_bytes plan.now) }
    ensures again { OnOk result (header_of (header_bytes plan.now) ≡ header_says plan.now) }
    ensures whole { OnOk result (IsBlock (header_bytes plan.now)) }
{
    let mut block = Block::zeroed(alloc)?;
    write_header(block.bytes_mut(), &Header { last: plan.head.0 });
    Ok(block)
}

/// The journal footer that names the head, with the three numbers.
#[tactic(auto, using(r4_base::proofs::Lent::refilled_is), unfolding(crate::specs::LogPlan::footer_bytes))]
pub(crate) fn make_footer(alloc: Global, plan: &LogPlan) -> Result<Block, Memory>
    ensures spelled { IfOk result (λ b. b ≡ footer_bytes plan.now) }
    ensures again { OnOk result (footer_of (footer_bytes plan.now) ≡ footer_says plan.now) }
    ensures whole { OnOk result (IsBlock (footer_bytes plan.now)) }
{
    let footer = Footer {
        last: plan.head.0,
        free_blocks: plan.free_blocks,
        nr_files: plan.nr_files,
        next_oid: plan.next_oid,
    };
    let mut block = Block::zeroed(alloc)?;
    write_footer(block.bytes_mut(), &footer);
    Ok(block)
}

/// The block of record `k`, or the head's where there is none.
fn block_after(plan: &LogPlan, k: usize) -> u64
    ensures { result ≡ number_after plan.now k }
{
    match plan.records.as_slice().get(k) {
        Some(block) => block.0,
        None => plan.head.0,
    }
}

/// The head and its records.
fn count_blocks(plan: &LogPlan) -> u32
    requires { length plan.now.records < 4294967295 }
    ensures { result ≡ total plan.now }
{
    plan.records.as_slice().len() as u32 + 1
}

/// A block that spells a head.
fn spell_head(alloc: Global, head: &TxHead) -> Result<Block, Memory>
    ensures spelled { IfOk result (λ b. b ≡ head_block head.now) }
    ensures again { OnOk result (head_of (head_block head.now) ≡ Some head.now) }
{
    let mut block = Block::zeroed(alloc)?;
    write_head(block.bytes_mut(), head);
    Ok(block)
}

/// The head.
#[tactic(auto, unfolding(crate::specs::LogPlan::head_says))]
pub(crate) fn make_head(alloc: Global, plan: &LogPlan) -> Result<Block, Memory>
    requires few { length plan.now.records < 4294967295 }
    ensures spelled { IfOk result (λ b. b ≡ head_block (head_says plan.now)) }
    ensures again { OnOk result (head_of (head_block (head_says plan.now)) ≡ Some (head_says plan.now)) }
{
    let head = TxHead {
        id: plan.id,
        total: count_blocks(plan),
        prev_tx: plan.prev.0,
        next_block: block_after(plan, 0),
        free_blocks: plan.free_blocks,
        nr_files: plan.nr_files,
        next_oid: plan.next_oid,
    };
    spell_head(alloc, &head)
}

/// The pairs of record `k`, counted from 0: the next 254 of them, or those that are left.
fn next_pairs(all: &[(u64, u64)], k: usize) -> &[(u64, u64)]
    requires { k < 4294967295 }
    ensures { result.now ≡ take 254 (drop (RECORD_PAIRS * k) all.now) }
{
    let from = (RECORD_PAIRS * k).min(all.len());
    let to = (from + RECORD_PAIRS).min(all.len());
    &all[from..to]
}

/// Record `k`, counted from 0.
#[tactic(auto, unfolding(crate::specs::LogPlan::record_says))]
fn make_record(alloc: Global, plan: &LogPlan, all: &[(u64, u64)], k: usize) -> Result<Block, Memory>
    requires few { length plan.now.records < 4294967295 }
    requires within { k < length plan.now.records }
    requires named { All (λ o. o ≢ 0) (originals_of plan.now) }
    requires pairs { all.now ≡ pairs plan.now }
    ensures spelled { IfOk result (λ b. b ≡ record_block (record_says plan.now k)) }
    ensures again { OnOk result (record_of (record_block (record_says plan.now k)) ≡ Some (record_says plan.now k)) }
{
    let total = count_blocks(plan);
    let next = block_after(plan, k + 1);
    let pairs = next_pairs(all, k);
    let mut block = Block::zeroed(alloc)?;
    write_record(block.bytes_mut(), plan.id, total, k as u32 + 1, next, pairs);
    Ok(block)
}

/// The records and the head, each at its block.
pub(crate) fn make_log(alloc: Global, plan: &LogPlan) -> Result<Vec<Entry>, Memory>
    requires few { length plan.now.records < 4294967295 }
    requires named { All (λ o. o ≢ 0) (originals_of plan.now) }
    ensures spelled { IfOk result (λ v. v.items ≡ record_writes plan.now ++ head_write plan.now ∷ []) }
    ensures again { OnOk result ((k : ℕ) → k < length plan.now.records → record_of (record_block (record_says plan.now k)) ≡ Some (record_says plan.now k)) }
    ensures head { OnOk result (head_of (head_block (head_says plan.now)) ≡ Some (head_says plan.now)) }
{
    let pairs = make_pairs(alloc, plan)?;
    let count = plan.records.as_slice().len();
    let mut log = Vec::with_capacity(alloc, count + 1)?;
    for k in 0..count {
        let block = make_record(alloc, plan, &pairs, k)?;
        let at = BlockNo(block_after(plan, k));
        log.push(Entry::of_block(alloc, at, block)?)?;
    }
    let head = make_head(alloc, plan)?;
    log.push(Entry::of_block(alloc, plan.head, head)?)?;
    Ok(log)
}

/// A block is whole.
fn see_whole(block: &Block)
    ensures { IsBlock block.now }
{
    block.bytes();
}

/// The placed cells, each at its block.
pub(crate) fn make_placed(alloc: Global, plan: &LogPlan) -> Result<Vec<Entry>, Memory>
    ensures spelled { IfOk result (λ v. v.items ≡ placed_writes plan.now) }
    ensures whole { OnOk result (All (λ w. IsBlock w.1) (placed_writes plan.now)) }
{
    let cells = plan.placed.as_slice();
    let mut made = Vec::with_capacity(alloc, cells.len())?;
    for placed in cells {
        see_whole(placed.cell.block());
        made.push(Entry::of_cell(placed.at, &placed.cell)?)?;
    }
    Ok(made)
}

/// The copies, with blocks that can be shared.
pub(crate) fn share(alloc: Global, wandered: WanderedCopies) -> Result<Vec<Shared>, Memory>
    ensures same { IfOk result (λ v. v.items ≡ wandered) }
    ensures whole { OnOk result (All (λ w. IsBlock w.block) wandered) }
{
    let mut shared = Vec::with_capacity(alloc, wandered.items.len())?;
    for copy in wandered.items {
        see_whole(copy.block.block());
        shared.push(Shared {
            original: copy.original.0,
            copy: copy.copy.0,
            what: What::of_home(alloc, copy.block)?,
        })?;
    }
    Ok(shared)
}

/// Puts the copies, each at its block, behind these writes.
fn add_copies(made: &mut Vec<Entry>, shared: &[Shared]) -> Result<(), Memory>
    ensures { OnOk result (made.new.items ≡ made.old.items ++ map (λ w. (w.copy, w.block)) shared.now) }
{
    for copy in shared {
        made.push(Entry::of_shared(copy.copy, &copy.what)?)?;
    }
    Ok(())
}

/// The first part: the placed cells, the copies, and the records and the head.
pub(crate) fn make_first(
    placed: Vec<Entry>,
    shared: &[Shared],
    log: Vec<Entry>,
) -> Result<Vec<Entry>, Memory>
    ensures { IfOk result (λ v. v.items ≡ placed.items ++ (map (λ w. (w.copy, w.block)) shared.now ++ log.items)) }
{
    let mut made = placed;
    let mut log = log;
    add_copies(&mut made, shared)?;
    made.append(&mut log)?;
    Ok(made)
}

/// The homes: each original with its new content.
pub(crate) fn make_homes(alloc: Global, shared: &[Shared]) -> Result<Vec<Entry>, Memory>
    ensures { IfOk result (λ v. v.items ≡ map (λ w. (w.original, w.block)) shared.now) }
{
    let mut made = Vec::with_capacity(alloc, shared.len())?;
    for copy in shared {
        made.push(Entry::of_shared(copy.original, &copy.what)?)?;
    }
    Ok(made)
}

/// The same writes in rising order of blocks, so that a disk need not seek back.
pub(crate) fn in_order(made: Vec<Entry>) -> Result<Vec<Entry>, Memory>
    ensures same { IfOk result (λ v. IsPermutation made.items v.items) }
    ensures rising { IfOk result (λ v. IsNonDecreasingBy (λ w. w.0) v.items) }
{
    let mut sorted = made;
    sorted.sort_by_key(|entry| entry.at)?;
    Ok(sorted)
}

//! The blocks of a commit's log, which are looked for before any of them is held.

ghost use Rattle.std.specs.Prelude.{◌≡◌, ◌≢◌, ◌+◌, ◌/◌, ◌<◌, ◌≤◌, [], ◌∷◌, ◌++◌, ℕ, map, take, length, All, false, slice_index, IfOk};
ghost use Rattle.r4_base.specs.Image.{AreDifferent};
ghost use Rattle.r4_base.specs.Bitmap.{is_fixed};
ghost use Rattle.r4_space.specs.Space.{is_taken, unused_count};
ghost use Rattle.r4_space.specs.Words.{IsNextClear};
ghost use Rattle.r4_commit.specs.Held.{blocks_in};
ghost use Rattle.r4_commit.specs.Planned.{IsUnused};

use crate::homes::Home;
use r4_base::{BlockNo, Memory, RECORD_PAIRS};
use r4_space::SpaceMap;
use r4_wander::WanderedCopy;
use std::alloc::Global;

/// The blocks of a log: those of the copies, in the order of the copies, then those of the records, and the head's. The
/// records' and the head's stand by themselves too.
#[derive(Drop)]
pub(crate) struct LogBlocks {
    pub(crate) all: Vec<BlockNo>,
    pub(crate) records: Vec<BlockNo>,
    pub(crate) head: BlockNo,
}

/// Finds the blocks of a log of so many copies: one for each of them, one for each record, and the head's, which is
/// another one than `prev`. None of them is held yet.
pub(crate) fn find_log(
    alloc: Global,
    prev: BlockNo,
    copies: usize,
    space: &SpaceMap,
) -> Result<LogBlocks, Memory>
    requires some { 1 ≤ copies }
    requires unused { copies + (copies + 253) / 254 + 1 ≤ unused_count space.now }
    ensures copies { IfOk result (λ log. copies ≤ length log.all.items) }
    ensures records { IfOk result (λ log. length log.records.items ≡ (copies + 253) / 254) }
    ensures parts { IfOk result (λ log. blocks_in log ≡ map (λ b. b.0) (take copies log.all.items) ++ (map (λ b. b.0) log.records.items ++ log.head.0 ∷ [])) }
    ensures different { IfOk result (λ log. AreDifferent (blocks_in log)) }
    ensures unused { IfOk result (λ log. All (IsUnused space.now) (blocks_in log)) }
    ensures head { IfOk result (λ log. log.head ≢ prev) }
{
    space.lawful();
    let records = copies.div_ceil(RECORD_PAIRS);
    let count = copies + records + 1;
    let all = find_blocks(alloc, prev, count, space)?;
    let head = all[count - 1];
    let records = Vec::from_slice(alloc, &all[copies..count - 1])?;
    Ok(LogBlocks { all, records, head })
}

/// The copies: what is overwritten, each at its block of the log.
pub(crate) fn lay_out(
    alloc: Global,
    homes: Vec<Home>,
    copies: &[BlockNo],
) -> Result<Vec<WanderedCopy>, Memory>
    requires { length homes.items ≡ length copies.now }
    ensures homes { IfOk result (λ v. map (λ w. (w.original, w.block)) v.items ≡ homes.items) }
    ensures copies { IfOk result (λ v. map (λ w. w.copy) v.items ≡ map (λ b. b.0) copies.now) }
{
    let mut made = Vec::with_capacity(alloc, copies.len())?;
    for home in homes {
        made.push(WanderedCopy {
            original: home.original,
            copy: copies[made.len()],
            block: home.block,
        })?;
    }
    Ok(made)
}

/// So many unused blocks: in rising order from `prev` on, and then from the front. So where `prev` is unused, it is the
/// first of them.
fn find_blocks(
    alloc: Global,
    prev: BlockNo,
    count: usize,
    space: &SpaceMap,
) -> Result<Vec<BlockNo>, Memory>
    requires some { 1 ≤ count }
    requires unused { count ≤ unused_count space.now }
    ensures count { IfOk result (λ v. length v.items ≡ count) }
    ensures different { IfOk result (λ v. AreDifferent (map (λ b. b.0) v.items)) }
    ensures unused { IfOk result (λ v. All (IsUnused space.now) (map (λ b. b.0) v.items)) }
    ensures first { IfOk result (λ v. IsUnused space.now prev.0 → slice_index (map (λ b. b.0) v.items) 0 ≡ prev.0) }
{
    space.lawful();
    let mut blocks = Vec::with_capacity(alloc, count)?;
    let mut from = prev;
    for _found in 0..count {
        let block = next_around(from, space);
        blocks.push(block)?;
        from = BlockNo(block.0 + 1);
    }
    Ok(blocks)
}

/// The next unused block from a number on, or else the first of all.
fn next_around(from: BlockNo, space: &SpaceMap) -> BlockNo
    requires { 1 ≤ unused_count space.now }
    ensures found { IsNextClear (is_taken space.now) space.now.block_count from.0 result.0 }
    ensures free { is_fixed space.now.block_count result.0 ≡ false }
{
    if let Some(block) = space.next_unused(from) {
        return block;
    }
    match space.next_unused(BlockNo(0)) {
        Some(block) => block,
        None => unreachable!(),
    }
}

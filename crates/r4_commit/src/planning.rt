//! The plan of an atom's commit.

ghost use Rattle.std.specs.Prelude.{◌≡◌, ◌≢◌, ◌++◌, ◌∷◌, [], ◌<◌, ◌≤◌, length, map, All, IfOk, OnErr};
ghost use Rattle.std.specs.Arc.{arc_value};
ghost use Rattle.std.specs.Ordering.{nat_cmp};
ghost use Rattle.std.specs.BTreeMap.{get};
ghost use Rattle.r4_base.specs.Bitmap.{bitmap_count};
ghost use Rattle.r4_space.specs.Accounts.{price_formula};
ghost use Rattle.r4_space.specs.Space.{unused_count};
ghost use Rattle.r4_place.specs.Chosen.{fresh_blocks};
ghost use Rattle.r4_commit.specs.Places.{overwritten, overwritten_blocks, place_of};
ghost use Rattle.r4_commit.specs.Planned.{IsPlanFor, IsPlanned, blocks_of};
ghost use Rattle.r4_wander.specs.LogPlan.{CanBeWritten, IsBelow};
ghost use Rattle.r4_wander.specs.Progress.{FitOn};

use crate::commit_plan::CommitPlan;
use crate::holding::hold_log;
use crate::homes::{make_bitmaps, make_homes, renew_super};
use crate::log_blocks::{find_log, lay_out};
use crate::places::{place_cells, read_places};
use r4_base::{AtomNo, BlockNo, Memory, Super40};
use r4_place::{Cell, Placed};
use r4_space::SpaceMap;
use r4_wander::{Blocks, LogPlan, PlacedCells, WanderedCopies, Writer};
use std::alloc::Global;
use std::sync::Arc;

/// The plan of an atom's commit, which takes all the memory of the commit. Each cell for which `placed` has a block is
/// written there; every other one keeps its block, and is overwritten there by wandering, and so are the superblock and
/// all bitmaps, changed or not. `next` is the superblock with the new root, height, next object id and number of files,
/// and with the old `free_blocks` and `flushes`: `plan` makes `flushes` one more, modulo 2^64, and `free_blocks` the
/// number of 0 bits of the new bitmaps. `prev` is the head that the journal header names; the new head is another block.
/// The blocks of the log are held for the atom from then on, and the space has the room for calls that it had. Every block
/// that is written is below the block count. The only error is want of memory, and then the space is as before. Condition:
/// as many blocks are unused as the price's formula gives for the cells that are overwritten; each of these has a block
/// below the block count, which is not block 0; the blocks in `placed` are below it too; and `next` counts the blocks of
/// the space (docs/commit.md, "Plans").
pub fn plan(
    alloc: Global,
    atom: AtomNo,
    cells: &[Arc<Cell>],
    placed: &[Placed],
    next: &Super40,
    prev: BlockNo,
    space: &mut SpaceMap,
) -> Result<CommitPlan, Memory>
    requires room { price_formula (length (overwritten_blocks placed.now (map (λ cell. arc_value cell) cells.now))) (bitmap_count space.old.block_count) ≤ unused_count space.old }
    requires overwritten { All (λ b. (b ≢ 0) × (b < space.old.block_count)) (overwritten_blocks placed.now (map (λ cell. arc_value cell) cells.now)) }
    requires placed { All (λ b. b < space.old.block_count) (fresh_blocks placed.now) }
    requires blocks { next.now.block_count ≡ space.old.block_count }
    ensures planned { IfOk result (IsPlanned space.old space.new atom (map (λ cell. arc_value cell) cells.now) placed.now next.now prev) }
    ensures fits { IfOk result (λ plan. FitOn space.old.block_count plan.work.plan) }
    ensures err { OnErr result (space.new ≡ space.old) }
{
    space.lawful();
    let made = make_plan(alloc, atom, cells, placed, next, prev, space)?;
    let head = made.plan.head;
    let writer = Writer::new(alloc, made.plan)?;
    hold_log(alloc, atom, made.blocks.as_slice(), space)?;
    Ok(CommitPlan {
        writer,
        head,
        super40: made.super40,
    })
}

/// A plan, the blocks of its log, and the superblock that it writes.
#[derive(Drop)]
struct Made {
    plan: LogPlan,
    blocks: Vec<BlockNo>,
    super40: Super40,
}

/// What the commit writes. The blocks of its log are found, and none is held yet. The condition is that of `plan`.
fn make_plan(
    alloc: Global,
    atom: AtomNo,
    cells: &[Arc<Cell>],
    placed: &[Placed],
    next: &Super40,
    prev: BlockNo,
    space: &SpaceMap,
) -> Result<Made, Memory>
    requires room { price_formula (length (overwritten_blocks placed.now (map (λ cell. arc_value cell) cells.now))) (bitmap_count space.now.block_count) ≤ unused_count space.now }
    requires overwritten { All (λ b. (b ≢ 0) × (b < space.now.block_count)) (overwritten_blocks placed.now (map (λ cell. arc_value cell) cells.now)) }
    requires placed { All (λ b. b < space.now.block_count) (fresh_blocks placed.now) }
    requires blocks { next.now.block_count ≡ space.now.block_count }
    ensures is_for { IfOk result (λ m. IsPlanFor space.now atom (map (λ cell. arc_value cell) cells.now) placed.now next.now prev m.plan) }
    ensures below { IfOk result (λ m. IsBelow space.now.block_count m.plan) }
    ensures written { IfOk result (λ m. CanBeWritten m.plan) }
    ensures blocks { IfOk result (λ m. map (λ b. b.0) m.blocks.items ≡ blocks_of m.plan) }
    ensures super40 { IfOk result (λ m. m.super40 ≡ record next.now { free_blocks = m.plan.free_blocks; flushes = m.plan.id }) }
{
    space.lawful();
    let places = read_places(alloc, placed)?;
    let placed = place_cells(alloc, cells, &places)?;
    let bitmaps = make_bitmaps(alloc, atom, next.block_count, space)?;
    let last = renew_super(next, &bitmaps);
    let homes = make_homes(alloc, &last, bitmaps, cells, &places)?;
    let copies = homes.len();
    let log = find_log(alloc, prev, copies, space)?;
    let wandered = lay_out(alloc, homes, &log.all[..copies])?;
    let plan = LogPlan {
        id: last.flushes,
        prev,
        head: log.head,
        records: Blocks::from_vec(log.records),
        placed: PlacedCells::from_vec(placed),
        wandered: WanderedCopies::from_vec(wandered),
        free_blocks: last.free_blocks,
        nr_files: last.file_count,
        next_oid: last.oid,
    };
    Ok(Made {
        plan,
        blocks: log.all,
        super40: last,
    })
}

//! What is built of a command in a tree on a device.

ghost use Rattle.std.specs.Prelude.{◌<◌, ◌≤◌, All, IfOk, IsSome, IsTrue, Option, length, map};
ghost use Rattle.std.specs.Arc.{arc_value};
ghost use Rattle.r4_content.specs.Fields.{HasBytePaths};
ghost use Rattle.r4_reaching.specs.Answers.{IsReach};
ghost use Rattle.r4_search.specs.Pool.{PoolState};
ghost use Rattle.r4_base.specs.Tree.{Root as TreeRoot, Store};
ghost use Rattle.r4_base.specs.Value.{Value};
ghost use Rattle.r4_build.specs.Built.{IsTaskIn, edits_for};
ghost use Rattle.r4_content.specs.Held.{pairs_of};
ghost use Rattle.r4_content.specs.Seen.{Rises};
ghost use Rattle.r4_build.specs.r4_leaf_edits.Suiting.{SuitLeaves};
ghost use Rattle.r4_change_testing.specs.Ready.{IsBlock, IsReady};

use r4_base::{Memory, ScriptNo, TaskId, TxnNo, UNPLACED};
use r4_buffer::{Buffer, Reading};
use r4_build::{Built, Task, build};
use r4_cell::{Cell, CellRefused, Fresh, Root, read_cell};
use r4_content::Command;
use r4_leaf_demands::commands_of_leaves_may_ask;
use r4_outside::{Device, MemoryDevice, OpenGate};
use r4_reaching::{Reach, reach_in_leaves};
use r4_tree_testing::BLOCKS;
use r4_turns::Scope;
use std::alloc::Global;
use std::sync::Arc;
use std::test::Fail;

/// What is built of a command on what it reaches in the tree on a device; new cells have numbers
/// from 2^63 on.
///
/// # Errors
/// Where there is no memory, the tree is not one of a device of `BLOCKS` blocks, or the command
/// touches an extent, or would raise a tree of height 8.
pub fn built(
    alloc: Global,
    dev: &mut MemoryDevice,
    root: Root,
    command: Command,
) -> Result<Built, Fail>
    requires { HasBytePaths command }
{
    if dev.blocks()? != BLOCKS || root.id.0 >= BLOCKS || root.height < 2 {
        return Err(Fail::from("the root is not on the device"));
    }
    let buffer = Buffer::new(alloc);
    let pool = Reading::new(dev, &buffer, root, BLOCKS);
    let (pool, found) = reach_in_leaves(alloc, pool, &root, &command);
    let _ = pool.into_device();
    match found {
        Ok(Some(reach)) => built_of(alloc, root, command, reach),
        Ok(None) => Err(Fail::from("an extent is touched")),
        Err(_) => Err(Fail::from("the reach is not found")),
    }
}

// What is built of a command, once its reach is found.
fn built_of(alloc: Global, root: Root, command: Command, reach: Reach) -> Result<Built, Fail>
    requires reach { (p : PoolState) × IsReach p root command reach }
    requires paths { HasBytePaths command }
{
    if !is_ready(alloc, &root, &reach)? {
        return Err(Fail::from("the reach is not of the device"));
    }
    build_ready(alloc, root, command, reach)
}

// What is built of a command whose cells are the device's.
fn build_ready(alloc: Global, root: Root, command: Command, reach: Reach) -> Result<Built, Fail>
    requires reach { (p : PoolState) × IsReach p root command reach }
    requires ready { IsReady root reach }
    requires paths { HasBytePaths command }
{
    let task = ready_task(alloc, root, command, reach)?;
    match build(alloc, &OpenGate, task) {
        Ok(built) => Ok(built),
        Err(_) => Err(Fail::from("there is no memory")),
    }
}

// The task of a command whose cells are the device's.
fn ready_task(alloc: Global, root: Root, command: Command, reach: Reach) -> Result<Task, Memory>
    requires reach { (p : PoolState) × IsReach p root command reach }
    requires ready { IsReady root reach }
    requires paths { HasBytePaths command }
    ensures can { IfOk result (λ x. (t : Store Value) × ((r : TreeRoot) × IsTaskIn t r x)) }
    ensures rises { IfOk result (λ x. Rises (pairs_of (arc_value x.seen))) }
    ensures suits { IfOk result (λ x. SuitLeaves 16384 (edits_for x)) }
{
    commands_of_leaves_may_ask();
    let Reach {
        reads,
        writes,
        seen,
        most,
        ..
    } = reach;
    Ok(Task {
        id: TaskId(1),
        script: ScriptNo(0),
        index: 0,
        txn: TxnNo(1),
        command,
        reads,
        writes,
        seen: Arc::new(alloc, seen)?,
        scope: Scope {
            root,
            in_leaves: true,
            in_extents: false,
            most,
        },
        fresh: Fresh {
            next: UNPLACED,
            end: UNPLACED + 64 * BLOCKS,
        },
    })
}

// Whether the cells that were met are the device's, and so is the root, which may rise where it
// has to.
fn is_ready(alloc: Global, root: &Root, reach: &Reach) -> Result<bool, Memory>
    ensures { IfOk result (λ b. IsTrue b → IsReady root.now reach.now) }
{
    if !is_on_device(root) || !may_rise(root, reach) {
        return Ok(false);
    }
    are_blocks(alloc, reach.met.as_slice())
}

// Whether the root is the device's, and has a height that a tree may have.
fn is_on_device(root: &Root) -> bool
    ensures from { IsTrue result → 22 ≤ root.now.id.0 }
    ensures below { IsTrue result → root.now.id.0 < 64 }
    ensures height { IsTrue result → root.now.height ≤ 8 }
{
    22 <= root.id.0 && root.id.0 < BLOCKS && root.height <= 8
}

// Whether the root may rise where it has to, and few cells are written.
fn may_rise(root: &Root, reach: &Reach) -> bool
    ensures low { IsTrue result → IsSome reach.now.root → root.now.height < 8 }
    ensures few { IsTrue result → length reach.now.writes ≤ 64 }
{
    if reach.root.is_some() && root.height >= 8 {
        return false;
    }
    reach.writes.as_slice().len() <= 64
}

// Whether cells are the device's.
fn are_blocks(alloc: Global, cells: &[Arc<Cell>]) -> Result<bool, Memory>
    ensures { IfOk result (λ b. IsTrue b → All IsBlock (map (λ c. arc_value c) cells.now)) }
{
    match cells.split_first() {
        None => Ok(true),
        Some((first, rest)) => {
            if !is_block(alloc, first)? {
                return Ok(false);
            }
            are_blocks(alloc, rest)
        }
    }
}

// Whether a cell is the device's.
fn is_block(alloc: Global, cell: &Cell) -> Result<bool, Memory>
    ensures { IfOk result (λ b. IsTrue b → IsBlock cell.now) }
{
    if cell.id().0 >= BLOCKS {
        return Ok(false);
    }
    let block = cell.block().copy(alloc)?;
    let (level, lo, hi) = (cell.level(), cell.lo(), cell.hi());
    match read_cell(alloc, cell.id(), level, lo, hi, BLOCKS, block) {
        Ok(_) => Ok(true),
        Err(CellRefused::Memory) => Err(Memory),
        Err(CellRefused::Fault(_)) => Ok(false),
    }
}

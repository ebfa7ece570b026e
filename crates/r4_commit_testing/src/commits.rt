//! Commits of cells.

ghost use Rattle.std.specs.Prelude.{◌≡◌, ◌<◌, ◌≤◌, length, map, All, OnOk};
ghost use Rattle.std.specs.Arc.{arc_value};
ghost use Rattle.r4_outside.specs.Device.{Goes};
ghost use Rattle.r4_outside.specs.Memory.{memory_state};
ghost use Rattle.r4_wander.specs.Progress.{FitOn};
ghost use Rattle.r4_space.specs.Accounts.{price_formula};
ghost use Rattle.r4_space.specs.Space.{unused_count};
ghost use Rattle.r4_place.specs.Chosen.{fresh_blocks};
ghost use Rattle.r4_commit_testing.specs.Cells.{HaveBlocks};

use crate::blocks::{number, read};
use crate::volumes::super_of;
use r4_base::{AtomNo, BlockNo};
use r4_cell::Cell;
use r4_commit::{CommitPlan, plan, step};
use r4_outside::MemoryDevice;
use r4_place::Placed;
use r4_space::SpaceMap;
use r4_wander::Stage;
use std::alloc::Global;
use std::sync::Arc;
use std::test::Fail;

// Makes all steps.
fn finish(commit: &mut CommitPlan, dev: &mut MemoryDevice) -> Result<(), Fail>
    requires begun { commit.old.work.part ≡ 0 }
    requires fits { FitOn (memory_state dev.old).blocks commit.old.work.plan }
    ensures { Goes (memory_state dev.old) (memory_state dev.new) }
{
    for _step in 0..200u64 {
        let Ok(got) = step(commit, dev) else {
            return Err(Fail::from("a step failed"));
        };
        if got == Stage::Footed {
            return Ok(());
        }
    }
    Err(Fail::from("the commit does not end"))
}

// Looks whether as many blocks are free as a commit of these cells takes at most.
fn has_room(cells: &[Arc<Cell>], space: &SpaceMap) -> Result<(), Fail>
    ensures { OnOk result (price_formula (length cells.now) 1 ≤ unused_count space.now) }
{
    if cells.len() > 1000 {
        return Err(Fail::from("there are too many cells"));
    }
    let copies = cells.len() as u64 + 2;
    if space.free() < copies + copies.div_ceil(254) + 1 {
        return Err(Fail::from("there is no room"));
    }
    Ok(())
}

/// Commits atom 1 of a volume of so many blocks. It fails where there is no room, where the device
/// fails, and where memory is short.
pub fn commit(
    alloc: Global,
    blocks: u64,
    dev: &mut MemoryDevice,
    cells: &[Arc<Cell>],
    placed: &[Placed],
    space: &mut SpaceMap,
) -> Result<(), Fail>
    requires least { 64 ≤ blocks }
    requires most { blocks ≤ 32736 }
    requires cells { HaveBlocks blocks (map (λ cell. arc_value cell) cells.now) }
    requires placed { All (λ b. b < blocks) (fresh_blocks placed.now) }
    requires space { space.old.block_count ≡ blocks }
    requires device { (memory_state dev.old).blocks ≡ blocks }
    ensures goes { Goes (memory_state dev.old) (memory_state dev.new) }
    ensures space { OnOk result (space.new.block_count ≡ blocks) }
{
    let next = super_of(alloc, dev)?;
    let header = read(alloc, dev, 19)?;
    has_room(cells, space)?;
    let prev = BlockNo(number(&header, 0));
    let mut commit = plan(alloc, AtomNo(1), cells, placed, &next, prev, space)?;
    finish(&mut commit, dev)
}

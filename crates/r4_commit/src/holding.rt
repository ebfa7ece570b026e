//! The blocks of a commit's log, which are held once nothing else can fail.

ghost use Rattle.std.specs.Prelude.{◌≡◌, ◌+◌, ◌-◌, ◌<◌, ◌≤◌, map, length, All, false, OnOk, OnErr};
ghost use Rattle.r4_base.specs.Image.{AreDifferent};
ghost use Rattle.r4_space.specs.Space.{is_taken, with_held};
ghost use Rattle.r4_commit.specs.Planned.{IsUnused, with_all_held};

use r4_base::{AtomNo, BlockNo, Memory};
use r4_space::SpaceMap;
use std::alloc::{AllocError, Global};

/// Holds the blocks of a log for an atom, in their order. The space has the same room for calls as before. The only error
/// is want of memory, and then the space is as before.
pub(crate) fn hold_log(
    alloc: Global,
    atom: AtomNo,
    blocks: &[BlockNo],
    space: &mut SpaceMap,
) -> Result<(), Memory>
    requires some { 1 ≤ length blocks.now }
    requires different { AreDifferent (map (λ b. b.0) blocks.now) }
    requires unused { All (IsUnused space.old) (map (λ b. b.0) blocks.now) }
    ensures held { OnOk result (space.new ≡ with_all_held space.old atom (map (λ b. b.0) blocks.now)) }
    ensures err { OnErr result (space.new ≡ space.old) }
{
    more_room(alloc, blocks.len() as u64, space)?;
    hold_blocks(atom, blocks, space);
    Ok(())
}

/// Makes room for so many calls besides those for which there is room.
fn more_room(alloc: Global, calls: u64, space: &mut SpaceMap) -> Result<(), Memory>
    ensures ok { OnOk result (space.new ≡ record space.old { spare = space.old.spare + calls }) }
    ensures err { OnErr result (space.new ≡ space.old) }
{
    let all = space.spare().checked_add(calls).ok_or(AllocError)?;
    space.room(alloc, all)
}

/// Holds these blocks, for which there is room.
fn hold_blocks(atom: AtomNo, blocks: &[BlockNo], space: &mut SpaceMap)
    requires some { 1 ≤ length blocks.now }
    requires different { AreDifferent (map (λ b. b.0) blocks.now) }
    requires unused { All (IsUnused space.old) (map (λ b. b.0) blocks.now) }
    requires room { length blocks.now ≤ space.old.spare }
    ensures { space.new ≡ record (with_all_held space.old atom (map (λ b. b.0) blocks.now)) { spare = space.old.spare - length blocks.now } }
{
    for block in blocks {
        hold_block(atom, *block, space);
    }
}

/// Holds a block that is unused.
fn hold_block(atom: AtomNo, block: BlockNo, space: &mut SpaceMap)
    requires within { block.0 < space.old.block_count }
    requires unused { is_taken space.old block.0 ≡ false }
    requires room { 1 ≤ space.old.spare }
    ensures { space.new ≡ with_held space.old atom block }
{
    let Some(_) = space.hold(atom, block) else {
        unreachable!();
    };
}

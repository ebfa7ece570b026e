//! A block for each cell of a slum that has none.

ghost use Rattle.std.specs.Prelude.{◌≡◌, ◌+◌, ◌^◌, ◌<◌, ◌≤◌, ℕ, length, map, All, true, false, Contains, slice_index_or, IfOk, OnErr};
ghost use Rattle.std.specs.Arc.{arc_value};
ghost use Rattle.r4_base.specs.Image.{AreDifferent};
ghost use Rattle.r4_space.specs.Space.{is_taken, unused_count, with_placed};
ghost use Rattle.r4_space.specs.Words.{IsNextClear};
ghost use Rattle.r4_place.specs.Chosen.{behind, placed_in, IsChosen, AreChosen, fresh_blocks, placed_all};

use crate::placed::{How, Placed};
use r4_base::{AtomNo, BlockNo, FIRST_PLACE, Memory};
use r4_cell::Cell;
use r4_space::SpaceMap;
use std::alloc::Global;
use std::sync::Arc;

/// What is done with each cell of a slum, in the slum's order. A cell without a block, whose name is at least 2^63, gets
/// the first unused block behind the last one that was placed, for the first cell from block 22 on, and where there is
/// none up to the end the first unused one; it is placed from then on. Every other cell is overwritten. The atom, the
/// threshold and whether the parent is free decide of relocation, and are not read yet. The only error is want of memory,
/// and then the space is as before. Condition: at least as many blocks are unused as the slum has cells, and each cell
/// that has a block has one below the block count (docs/space.md, "Places").
pub fn choose(
    alloc: Global,
    atom: AtomNo,
    slum: &[Arc<Cell>],
    threshold: u64,
    parent_free: bool,
    space: &mut SpaceMap,
) -> Result<Vec<Placed>, Memory>
    requires unused { length slum.now ≤ unused_count space.old }
    requires within { All (λ c. c.id < 2 ^ 63 → c.id < space.old.block_count) (map (λ cell. arc_value cell) slum.now) }

    // Each cell is answered once, in order, and what is placed is placed in that order.
    ensures chosen { IfOk result (λ v. AreChosen 22 space.old (map (λ cell. arc_value cell) slum.now) v.items) }
    ensures space { IfOk result (λ v. space.new ≡ placed_all space.old v.items) }

    // The fresh blocks were unused, are different and are used now; nothing else of the space has changed.
    ensures unused { IfOk result (λ v. All (λ b. (b < space.old.block_count) × (is_taken space.old b ≡ false)) (fresh_blocks v.items)) }
    ensures different { IfOk result (λ v. AreDifferent (fresh_blocks v.items)) }
    ensures used { IfOk result (λ v. All (λ b. slice_index_or space.new.placed b false ≡ true) (fresh_blocks v.items)) }
    ensures others { IfOk result (λ v. (b : ℕ) → (Contains (fresh_blocks v.items) b → ⊥) → slice_index_or space.new.placed b false ≡ slice_index_or space.old.placed b false) }
    ensures rest { IfOk result (λ v. space.new ≡ record space.old { placed = space.new.placed }) }
    ensures err { OnErr result (space.new ≡ space.old) }
{
    let _ = (atom, threshold, parent_free);
    space.lawful();
    let mut all = Vec::with_capacity(alloc, slum.len())?;
    let mut near = BlockNo(FIRST_PLACE);
    for cell in slum {
        let how = choose_how(cell, near, space);
        near = look_behind(near, how);
        all.push(Placed {
            node: cell.id(),
            how,
        })?;
    }
    Ok(all)
}

/// What is done with a cell, where the next block is looked for from `near` on.
fn choose_how(cell: &Cell, near: BlockNo, space: &mut SpaceMap) -> How
    requires { 1 ≤ unused_count space.old }
    ensures chosen { IsChosen near.0 space.old cell.now result }
    ensures space { space.new ≡ placed_in space.old result }
    ensures left { unused_count space.old ≤ unused_count space.new + 1 }
    ensures small { near.0 ≤ 1048576 → behind near.0 result ≤ 1048576 }
{
    if cell.id().0 < 0x8000_0000_0000_0000 {
        return How::Overwrite;
    }
    How::Fresh(place_block(near, space))
}

/// The next unused block from `near` on, or else the first one, which is placed from then on.
fn place_block(near: BlockNo, space: &mut SpaceMap) -> BlockNo
    requires { 1 ≤ unused_count space.old }
    ensures found { IsNextClear (is_taken space.old) space.old.block_count near.0 result.0 }
    ensures placed { space.new ≡ with_placed space.old result.0 }
    ensures fewer { unused_count space.new + 1 ≡ unused_count space.old }
    ensures low { result.0 < 1048576 }
{
    space.lawful();
    match space.place(near) {
        Some(block) => block,
        None => unreachable!(),
    }
}

/// Where the next block is looked for.
fn look_behind(near: BlockNo, how: How) -> BlockNo
    requires { behind near.0 how < 2 ^ 64 }
    ensures { result.0 ≡ behind near.0 how }
{
    match how {
        How::Fresh(block) | How::Relocate(block) => BlockNo(block.0 + 1),
        How::Overwrite => near,
    }
}

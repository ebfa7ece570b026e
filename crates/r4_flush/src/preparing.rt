//! What the flush of an atom prepares (docs/durable.md, "From an open atom to its plan").

ghost use Rattle.std.specs.Prelude.{◌≡◌, ◌≢◌, ◌+◌, ◌<◌, ◌≤◌, All, IfOk, length, map};
ghost use Rattle.std.specs.Arc.{arc_value};
ghost use Rattle.r4_base.specs.Bitmap.{bitmap_count};
ghost use Rattle.r4_place.specs.Chosen.{fresh_blocks};
ghost use Rattle.r4_space.specs.Accounts.{price_formula};
ghost use Rattle.r4_space.specs.Space.{unused_count};
ghost use Rattle.r4_flush.specs.Asked.{StandsIn, fresh_count};
ghost use Rattle.r4_flush.specs.Prepared.{IsPlannedByBlock, IsPrepared, cells_of};

use crate::cells::{RenamedCell, rename_cells};
use crate::names::{by_block, new_name, read_names};
use r4_base::{AtomNo, BlockNo, Memory, NodeId, Super40};
use r4_cell::Cell;
use r4_flushed::{CommitPlan, plan};
use r4_place::{Placed, choose};
use r4_space::SpaceMap;
use r4_work::by_place;
use std::alloc::Global;
use std::sync::Arc;

/// What a flush has made before anything is changed: the cells of the atom, in the order of their levels, and within a
/// level of the keys with which they begin, each under the name of its block; the name of the root; the plan of the
/// commit; and the space in which the chosen blocks are placed and those of the log are held (docs/durable.md, "From an
/// open atom to its plan").
#[derive(Drop)]
pub struct Prepared {
    pub renamed: Vec<RenamedCell>,
    pub root: NodeId,
    pub plan: CommitPlan,
    pub space: SpaceMap,
}

/// All that the flush of an atom makes, which takes all its memory. The cells are those of the atom, in any order. Each
/// that has no block, by its name from 2^63 on, gets one as `choose` chooses them in the order of levels and keys, and
/// that block's name; every other keeps its own. Pointers, and units of one block, name by the new names; a wider unit
/// of an extent stays as it is, and so does each other byte. `next` is the superblock to come, as `plan` takes it, but
/// that its root has the name that it had. The plan is made for the cells and the superblock under the new names. The
/// threshold and squeezing are not read yet. The space is read and copied. The only error is want of memory. A cell of
/// which nothing changes is shared, and a block is copied for each other. Condition: as many blocks are unused as the
/// price's formula gives for the cells, and one for each without a block; each other one has a block below the block
/// count, which is not block 0; and `next` counts the blocks of the space (docs/durable.md, "From an open atom to its
/// plan").
pub fn prepare(
    alloc: Global,
    atom: AtomNo,
    cells: Vec<Arc<Cell>>,
    next: &Super40,
    prev: BlockNo,
    space: &SpaceMap,
) -> Result<Prepared, Memory>
    requires room { price_formula (length cells.items) (bitmap_count space.now.block_count)
        + fresh_count (map (λ c. arc_value c) cells.items) ≤ unused_count space.now }
    requires stand { All (StandsIn space.now.block_count) (map (λ c. arc_value c) cells.items) }
    requires blocks { next.now.block_count ≡ space.now.block_count }
    ensures { IfOk result (IsPrepared (map
        (λ c. arc_value c) cells.items) atom next.now prev space.now) }
{
    space.lawful();
    let mut cells = cells;
    cells.sort_unstable_by(|a, b| by_place(a, b));
    let mut space = space.copy(alloc)?;
    let answers = choose(alloc, atom, cells.as_slice(), 0, false, &mut space)?;
    let names = read_names(alloc, answers.as_slice())?;
    let renamed = rename_cells(alloc, cells.as_slice(), &names)?;
    let root = NodeId(new_name(&names, next.root_block));
    let next = with_root(next, root);
    let plan = plan_renamed(
        alloc,
        atom,
        renamed.as_slice(),
        answers.as_slice(),
        &next,
        prev,
        &mut space,
    )?;
    Ok(Prepared {
        renamed,
        root,
        plan,
        space,
    })
}

// The superblock to come, of which the root has this name.
fn with_root(next: &Super40, root: NodeId) -> Super40
    ensures { result ≡ record next.now { root_block = root.0 } }
{
    Super40 {
        root_block: root.0,
        ..*next
    }
}

// The plan for the cells under the names of their blocks. The condition is that of `plan`, where each cell may be
// overwritten.
fn plan_renamed(
    alloc: Global,
    atom: AtomNo,
    renamed: &[RenamedCell],
    answers: &[Placed],
    next: &Super40,
    prev: BlockNo,
    space: &mut SpaceMap,
) -> Result<CommitPlan, Memory>
    requires room { price_formula (length renamed.now) (bitmap_count space.old.block_count)
        ≤ unused_count space.old }
    requires within { All (λ c. (c.id ≢ 0) × (c.id < space.old.block_count))
        (cells_of renamed.now) }
    requires placed { All (λ b. b < space.old.block_count) (fresh_blocks answers.now) }
    requires blocks { next.now.block_count ≡ space.old.block_count }
    ensures { IfOk result
        (IsPlannedByBlock space.old space.new atom renamed.now answers.now next.now prev) }
{
    let cells = share_cells(alloc, renamed)?;
    let answers = by_block(alloc, answers)?;
    plan(
        alloc,
        atom,
        cells.as_slice(),
        answers.as_slice(),
        next,
        prev,
        space,
    )
}

// The cells, each shared.
fn share_cells(alloc: Global, renamed: &[RenamedCell]) -> Result<Vec<Arc<Cell>>, Memory>
    ensures { IfOk result (λ v. map (λ c. arc_value c) v.items ≡ cells_of renamed.now) }
{
    let mut cells = Vec::with_capacity(alloc, renamed.len())?;
    for one in renamed {
        cells.push(Arc::try_clone(&one.cell)?)?;
    }
    Ok(cells)
}

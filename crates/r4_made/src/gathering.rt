//! The cells of a task gathered below one twig, before its body comes to extents or grows
//! (docs/volume.md, "Bodies in extents").

ghost use Rattle.std.specs.Prelude.{◌≡◌, IfOk, IfSome, false, map};
ghost use Rattle.std.specs.Arc.{arc_value};
ghost use Rattle.r4_base.specs.Key.{rank};
ghost use Rattle.r4_row_gather.specs.Gathering.{IsBroughtBelow};
ghost use Rattle.r4_put_tasks.specs.r4_lost_tasks.r4_extent_shrink.r4_extent_demands.Sizes.{IsSizedBody};
ghost use Rattle.r4_made.specs.Gathering.{IsGatheredFor};
ghost use Rattle.r4_made.specs.Making.{IsMadeIn, IsMadeOf, MayBeBuilt};

use r4_base::Memory;
use r4_put_tasks::{Cell, Change, SizedBody, Task};
use r4_row_gather::{Gathered, KeyRange, follow, gather, gather_packed};
use std::alloc::Global;
use std::sync::Arc;

/// The cells of a task that stand once all of them that have keys of the blocks that come are below
/// one twig. The only error is want of memory: also where they cannot be brought there
/// (docs/volume.md, "Bodies in extents").
pub(crate) fn gathered(alloc: Global, task: &Task, body: &SizedBody) -> Result<Gathered, Memory>
    requires sized { IsSizedBody body.now }
    ensures gathered { IfOk result (IsGatheredFor task.now) }
{
    let cells = task.writes.as_slice();
    let Some(gathered) = brought_below(alloc, cells, &body.coming())? else {
        return Err(Memory);
    };
    if gathered.cells.as_slice().len() > cells.len() {
        return Err(Memory);
    }
    Ok(gathered)
}

// Some cells with all that has keys of a range below one twig: with their leaves as they are, or
// packed, where more leaves have such keys than one twig has pointers.
fn brought_below(
    alloc: Global,
    cells: &[Arc<Cell>],
    keys: &KeyRange,
) -> Result<Option<Gathered>, Memory>
    ensures { IfOk result (λ o. IfSome o (IsBroughtBelow (map (λ c. arc_value c) cells.now)
        (rank keys.now.from) (rank keys.now.to))) }
{
    match gather(alloc, cells, keys)? {
        Some(gathered) => Ok(Some(gathered)),
        None => gather_packed(alloc, cells, keys),
    }
}

/// The change of a task that gathers its cells, and the one that was made of these then, as one.
/// The only error is want of memory.
pub(crate) fn joined(
    alloc: Global,
    task: &Task,
    gathered: &Gathered,
    change: &Change,
) -> Result<Change, Memory>
    requires task { MayBeBuilt task.now }
    requires outside { task.now.scope.in_leaves ≡ false }
    requires gathered { IsGatheredFor task.now gathered.now }
    requires made { IsMadeIn task.now gathered.now.cells change.now }
    ensures { IfOk result (IsMadeOf task.now) }
{
    follow(alloc, &gathered.change, change)
}

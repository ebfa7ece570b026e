//! The change of a task whose body stands in extents and loses no blocks, or had no bytes and comes
//! to extents where no leaf is (docs/volume.md, "Bodies in extents").

ghost use Rattle.std.specs.Prelude.{◌≡◌, IfOk, IfSome, Some, map, true};
ghost use Rattle.std.specs.Arc.{arc_value};
ghost use Rattle.r4_content.specs.Held.{edits_of};
ghost use Rattle.r4_made.specs.Growing.{MayBeGrown};
ghost use Rattle.r4_made.specs.Making.{IsMadeIn, IsPlanned, MayBeBuilt, over};

use crate::allowing::allowance;
use r4_base::Memory;
use r4_content::Edits;
use r4_put_tasks::{
    Cell, Change, SizedBody, Task, bytes_have_places, change_of_growing, may_grow, twigs_coming,
};
use std::alloc::Global;
use std::sync::Arc;

/// Makes the change of a task whose body loses no blocks, of these cells in the place of those that
/// it writes; none where it may not be made of them. The only error is want of memory: also where
/// the cells above the twigs do not suffice (docs/volume.md, "Bodies in extents").
pub(crate) fn grown_in(
    alloc: Global,
    task: &Task,
    cells: &[Arc<Cell>],
    body: &SizedBody,
    edits: &Edits,
) -> Result<Option<Change>, Memory>
    requires task { MayBeBuilt (over task.now (map (λ c. arc_value c) cells.now)) }
    requires planned { IsPlanned task.now (edits_of edits.now) (Some body.now) }
    ensures { IfOk result (λ o. IfSome o
        (λ d. IsMadeIn task.now (map (λ c. arc_value c) cells.now) d)) }
{
    if !may_be_grown(alloc, task, cells, body, edits)? {
        return Ok(None);
    }
    let twigs = twigs_coming(alloc, body, edits, cells)?;
    let _table = allowance(alloc, task, cells, twigs.as_slice())?;
    let mut fresh = task.fresh;
    let change = change_of_growing(alloc, cells, body, edits, &mut fresh)?;
    Ok(Some(change))
}

// Whether a body may grow in the cells, and each byte that is set gets its place there.
fn may_be_grown(
    alloc: Global,
    task: &Task,
    cells: &[Arc<Cell>],
    body: &SizedBody,
    edits: &Edits,
) -> Result<bool, Memory>
    requires planned { IsPlanned task.now (edits_of edits.now) (Some body.now) }
    ensures { IfOk result (λ ok. ok ≡ true → MayBeGrown task.now (map (λ c. arc_value c) cells.now)
        body.now (edits_of edits.now)) }
{
    if !may_grow(alloc, body, edits, cells, &task.fresh)? {
        return Ok(false);
    }
    let have = bytes_have_places(alloc, body, edits, task.reads.as_slice(), cells)?;
    Ok(have)
}

//! A change over another as one change (docs/volume.md, "Changes").

ghost use Rattle.std.specs.Prelude.{◌≡◌, ◌++◌, [], ◌∷◌, map, IfOk, OnOk};
ghost use Rattle.std.specs.Arc.{arc_value};
ghost use Rattle.std.specs.List.Sorted.{IsPermutation, IsNonDecreasing};
ghost use Rattle.r4_patch.specs.Following.{IsFollowed, without};
ghost use Rattle.r4_patch.specs.Joining.{ids_of};

use crate::joining::{is_among, share, sorted_ids};
use r4_base::Memory;
use r4_cell::{Cell, Cells, Change};
use std::alloc::Global;
use std::sync::Arc;

/// One change with the effects of a change and of one of what it leaves: what the first made and the second replaced is in
/// neither list. What the effect on a part of a tree is, `followed_change` says. Cells are shared and no block is copied.
/// The only error is want of memory. For n cells of both it takes n log n steps.
pub fn follow(alloc: Global, one: &Change, two: &Change) -> Result<Change, Memory>
    ensures { IfOk result (λ c. IsFollowed one.now two.now c) }
{
    let old = both_without(alloc, &one.old, &two.old, &one.new)?;
    let new = both_without(alloc, &two.new, &one.new, &two.old)?;
    Ok(Change {
        old,
        new,
        root: two.root.or(one.root),
    })
}

// The first cells, and then those of the second that have no number of some others.
fn both_without(
    alloc: Global,
    first: &Cells,
    second: &Cells,
    others: &Cells,
) -> Result<Cells, Memory>
    ensures { IfOk result (λ cells. cells ≡ first.now ++ without (ids_of others.now) second.now) }
{
    let ids = sorted_ids(alloc, others)?;
    let mut items = Vec::new(alloc);
    share(&mut items, first.as_slice())?;
    share_without(&mut items, second.as_slice(), ids.as_slice())?;
    Ok(Cells::from_vec(items))
}

// Puts those of these cells behind the others that have none of these numbers.
fn share_without(items: &mut Vec<Arc<Cell>>, cells: &[Arc<Cell>], ids: &[u64]) -> Result<(), Memory>
    requires { IsNonDecreasing ids.now }
    ensures { OnOk result (map (λ cell. arc_value cell) items.new.items
        ≡ map (λ cell. arc_value cell) items.old.items
        ++ without ids.now (map (λ cell. arc_value cell) cells.now)) }
{
    for cell in cells {
        share_unless(items, cell, ids)?;
    }
    Ok(())
}

// Puts the cell behind the others, unless it has one of these numbers.
fn share_unless(items: &mut Vec<Arc<Cell>>, cell: &Arc<Cell>, ids: &[u64]) -> Result<(), Memory>
    requires { IsNonDecreasing ids.now }
    ensures { OnOk result (map (λ cell. arc_value cell) items.new.items
        ≡ map (λ cell. arc_value cell) items.old.items
        ++ without ids.now (arc_value cell.now ∷ [])) }
{
    if is_among(ids, cell.id().0) {
        return Ok(());
    }
    items.push(Arc::try_clone(cell)?)?;
    Ok(())
}

//! Whether one of the cells that were met is named as another one than it is (docs/volume.md, "Reach").

ghost use Rattle.std.specs.Prelude.{◌≡◌, All, Err, IfOk, MatchResult, None, OnOk, Some, map};
ghost use Rattle.std.specs.Arc.{arc_value};
ghost use Rattle.std.specs.List.Sorted.{IsNonDecreasingBy, IsPermutation};
ghost use Rattle.r4_cell.specs.Patch.{by_name, root_of_pair};
ghost use Rattle.r4_marking.specs.r4_patch.Part.{IsPart};
ghost use Rattle.r4_judging.specs.Judging.{HangTogether, IsJudged, IsRefusal, IsSound, all_names};

use crate::misfit::{Misfit, first_of};
use crate::nodes::misfit_of;
use r4_base::Memory;
use r4_cell::{Cell, Root};
use r4_search::FetchFault;
use std::alloc::Global;
use std::sync::Arc;

/// Refuses the first of the cells that were met which another one names with another level or range, as `Damaged`, with
/// its block: the first by level from the root, then by range; the fault is `Level`, or `Range` at item 0 where none
/// names it with another level. Else they are a part of a tree, and each is a node or a data block by itself. A block
/// that was not met is not judged
/// (docs/volume.md, "Reach"). For n cells with m names it takes (n + m) log n steps; a unit of an extent counts as one
/// name, with each of its blocks that was met.
pub fn judge(alloc: Global, root: &Root, met: &[Arc<Cell>]) -> Result<(), FetchFault>
    requires { HangTogether root.now (map (λ c. arc_value c) met.now) }
    ensures judged { MatchResult result
        (λ u. IsPart (by_name (map (λ c. arc_value c) met.now)) (root_of_pair root.now))
        (λ e. IsRefusal (map (λ c. arc_value c) met.now) e) }
    ensures sound { OnOk result (All IsSound (map (λ c. arc_value c) met.now)) }
{
    match misnamed(alloc, met)? {
        None => Ok(()),
        Some(misfit) => Err(FetchFault::Damaged {
            block: misfit.block,
            fault: misfit.fault,
        }),
    }
}

/// The first of these cells that one of them names with another level or range, as `judge` takes it. The only error is
/// want of memory (docs/volume.md, "Reach").
pub fn misnamed(alloc: Global, met: &[Arc<Cell>]) -> Result<Option<Misfit>, Memory>
    ensures judged { IfOk result (λ o. IsJudged (all_names (map (λ c. arc_value c) met.now))
        (map (λ c. arc_value c) met.now) o) }
    ensures sound { IfOk result (λ o. All IsSound (map (λ c. arc_value c) met.now)) }
{
    let cells = by_number(alloc, met)?;
    let mut found = None;
    for cell in met {
        found = first_of(found, misfit_of(cell, &cells));
    }
    Ok(found)
}

// The cells by their numbers; they are shared.
fn by_number(alloc: Global, met: &[Arc<Cell>]) -> Result<Vec<Arc<Cell>>, Memory>
    ensures same { IfOk result (λ v. IsPermutation (map (λ c. arc_value c) met.now)
        (map (λ c. arc_value c) v.items)) }
    ensures order { IfOk result (λ v. IsNonDecreasingBy (λ c. c.id)
        (map (λ c. arc_value c) v.items)) }
{
    let mut cells = Vec::with_capacity(alloc, met.len())?;
    for cell in met {
        cells.push(Arc::try_clone(cell)?)?;
    }
    cells.sort_unstable_by_key(|c| c.id().0);
    Ok(cells)
}

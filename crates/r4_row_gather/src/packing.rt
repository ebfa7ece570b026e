//! Leaves packed below each of several twigs, before what has keys of a range is brought below one (docs/volume.md, "Bodies
//! in extents").

ghost use Rattle.std.specs.Prelude.{◌≡◌, IfOk, IfSome, map};
ghost use Rattle.std.specs.Arc.{arc_value};
ghost use Rattle.r4_base.specs.Key.{rank};
ghost use Rattle.r4_work.specs.r4_patch.Following.{IsFollowed};
ghost use Rattle.r4_row_gather.specs.Gathering.{IsBroughtBelow, StaysStill};

use crate::finding::{cell_at, row_among};
use crate::gathering::{Gathered, gather, standing};
use r4_base::{Key, LEAF, Memory, TWIG};
use r4_patch::{Cell, follow};
use r4_squeeze::{is_slum, squeeze};
use r4_work::KeyRange;
use std::alloc::Global;
use std::sync::Arc;

/// Brings all that has keys of a range below one twig, as `gather` does, once the leaves with such keys are packed below
/// each of the twigs: so more leaves may have them than one twig has room for pointers. Each unit stays, in its kind of
/// cell; no number is taken, and the root stays. `None` where no leaves are packed, or where what stands then cannot be
/// gathered. The only error is want of memory (docs/volume.md, "Bodies in extents").
pub fn gather_packed(
    alloc: Global,
    cells: &[Arc<Cell>],
    keys: &KeyRange,
) -> Result<Option<Gathered>, Memory>
    ensures { IfOk result (λ o. IfSome o (IsBroughtBelow (map (λ c. arc_value c) cells.now)
        (rank keys.now.from) (rank keys.now.to))) }
{
    let Some(row) = row_among(alloc, cells, TWIG, keys.from, keys.to)? else {
        return Ok(None);
    };
    let Some(packed) = packed_below(alloc, cells, row.as_slice(), keys)? else {
        return Ok(None);
    };
    let Some(gathered) = gather(alloc, packed.cells.as_slice(), keys)? else {
        return Ok(None);
    };
    let both = in_turn(alloc, &packed, gathered)?;
    Ok(Some(both))
}

// Packs the leaves that have keys of a range below each of these twigs, the last one first; none where none is packed.
fn packed_below(
    alloc: Global,
    cells: &[Arc<Cell>],
    twigs: &[Arc<Cell>],
    keys: &KeyRange,
) -> Result<Option<Gathered>, Memory>
    ensures { IfOk result (λ o. IfSome o (StaysStill (map (λ c. arc_value c) cells.now))) }
{
    let Some((twig, rest)) = twigs.split_first() else {
        return Ok(None);
    };
    let Some(packed) = packed_below(alloc, cells, rest, keys)? else {
        return squeezed(alloc, cells, twig.lo(), keys);
    };
    match squeezed(alloc, packed.cells.as_slice(), twig.lo(), keys)? {
        None => Ok(Some(packed)),
        Some(more) => {
            let both = in_turn(alloc, &packed, more)?;
            Ok(Some(both))
        }
    }
}

// Packs the leaves that have keys of a range below the twig that has a key; none where these are not among the cells, or
// are fewer than two.
fn squeezed(
    alloc: Global,
    cells: &[Arc<Cell>],
    at: Key,
    keys: &KeyRange,
) -> Result<Option<Gathered>, Memory>
    ensures { IfOk result (λ o. IfSome o (StaysStill (map (λ c. arc_value c) cells.now))) }
{
    let Some(twig) = cell_at(cells, TWIG, at) else {
        return Ok(None);
    };
    let lo = twig.lo();
    let from = if keys.from.is_below(lo) {
        lo
    } else {
        keys.from
    };
    let hi = twig.hi();
    let to = if hi.is_below(keys.to) { hi } else { keys.to };
    let Some(leaves) = row_among(alloc, cells, LEAF, from, to)? else {
        return Ok(None);
    };
    if leaves.as_slice().len() < 2 || !is_slum(leaves.as_slice(), twig) {
        return Ok(None);
    }
    let change = squeeze(alloc, leaves.as_slice(), twig)?;
    let cells = standing(alloc, cells, &change)?;
    Ok(Some(Gathered { change, cells }))
}

// A change, and one of the cells that stand then, as one.
fn in_turn(alloc: Global, one: &Gathered, two: Gathered) -> Result<Gathered, Memory>
    ensures followed { IfOk result (λ g. IsFollowed one.now.change two.change g.change) }
    ensures cells { IfOk result (λ g. g.cells ≡ two.cells) }
{
    let change = follow(alloc, &one.change, &two.change)?;
    Ok(Gathered {
        change,
        cells: two.cells,
    })
}

//! How many leaves and twigs may come to those twigs of a task among whose extents values come
//! (docs/volume.md, "Bodies in extents").

ghost use Rattle.std.specs.Prelude.{◌≡◌, ◌++◌, ◌∷◌, [], IfOk, OnOk, map};
ghost use Rattle.std.specs.Arc.{arc_value};
ghost use Rattle.std.specs.Option.{option_copied};
ghost use Rattle.r4_content.specs.Held.{edits_of};
ghost use Rattle.r4_extent_among.specs.Among.{among_need, more_twigs};
ghost use Rattle.r4_extent_turned.specs.r4_extent_growth.Coming.{count_of};
ghost use Rattle.r4_extent_turned.specs.r4_extent_growth.r4_extent_demands.Sizes.{AreExtentEdits};
ghost use Rattle.r4_extent_turned.specs.r4_extent_growth.r4_extent_demands.r4_leaf_demands.Leaves.{IsInLeaves};
ghost use Rattle.r4_extent_turned.specs.r4_extent_growth.r4_measure.r4_cell.Seen.{node_of};
ghost use Rattle.r4_extent_turned.specs.r4_extent_growth.r4_measure.r4_reach.Needs.{put_among};
ghost use Rattle.r4_extent_put.specs.Putting.{leaves_put};
ghost use Rattle.r4_extent_put.specs.Taking.{twigs_beside, twigs_putting};
ghost use Rattle.r4_extent_put.specs.Whole.{putting_among};

use crate::finding::is_putting;
use r4_base::{Memory, NodeId};
use r4_content::Edits;
use r4_extent_turned::{Cell, POINTER_ROOM, SizedBody, cells_coming, pieces_of_cell, twig_bytes};
use std::alloc::{AllocError, Global};
use std::slice::from_ref;
use std::sync::Arc;

/// How many bytes of items and their headers a twig has room for (docs/volume.md, "Twigs").
const TWIG_ROOM: u64 = 4068;

/// A twig comes beside another one for so many bytes at least that are too many for it.
const BYTES_FOR_TWIG: u64 = 1024;

/// For each twig among some cells among whose extents values come, in their order, its number, and
/// how many twigs may come beside it once it has the leaves that come; the body, if there is one,
/// stands in no extents afterwards. The only error is want of memory, where 2^64 bytes or more may
/// be needed too (docs/volume.md, "Bodies in extents").
pub fn twigs_putting(
    alloc: Global,
    body: Option<&SizedBody>,
    edits: &Edits,
    cells: &[Arc<Cell>],
) -> Result<Vec<(NodeId, u64)>, Memory>
    requires edits { AreExtentEdits (option_copied body) (edits_of edits.now) }
    requires in_leaves { IsInLeaves (option_copied body) }
    ensures { IfOk result (λ v. map count_of v.items
        ≡ twigs_putting (option_copied body.entry) (edits_of edits.now)
        (map (λ c. arc_value c) cells.now)) }
{
    let mut twigs = Vec::new(alloc);
    for cell in cells {
        add(alloc, &mut twigs, body, edits, cell)?;
    }
    Ok(twigs)
}

// Puts a cell behind others, with how many twigs may come beside it, where it is a twig among whose
// extents values come.
fn add(
    alloc: Global,
    twigs: &mut Vec<(NodeId, u64)>,
    body: Option<&SizedBody>,
    edits: &Edits,
    cell: &Arc<Cell>,
) -> Result<(), Memory>
    requires edits { AreExtentEdits (option_copied body) (edits_of edits.now) }
    requires in_leaves { IsInLeaves (option_copied body) }
    ensures { OnOk result (map count_of twigs.new.items ≡ map count_of twigs.old.items
        ++ map (twigs_beside (option_copied body.entry) (edits_of edits.now))
        (putting_among (option_copied body.entry) (edits_of edits.now)
        (arc_value cell.now ∷ []))) }
{
    if !is_putting(body, edits, cell) {
        return Ok(());
    }
    let need = need_of(alloc, body, edits, cell)?;
    twigs.push((cell.id(), more_twigs(need)))?;
    Ok(())
}

// How many twigs may come beside one that needs so many bytes.
fn more_twigs(need: u64) -> u64
    ensures { result ≡ more_twigs need }
{
    need.saturating_sub(TWIG_ROOM).div_ceil(BYTES_FOR_TWIG)
}

// How many bytes a twig needs at most once it has the leaves that come.
pub(crate) fn need_of(
    alloc: Global,
    body: Option<&SizedBody>,
    edits: &Edits,
    twig: &Arc<Cell>,
) -> Result<u64, Memory>
    requires twig { (arc_value twig.now).level ≡ 2 }
    requires edits { AreExtentEdits (option_copied body) (edits_of edits.now) }
    requires in_leaves { IsInLeaves (option_copied body) }
    ensures { IfOk result (λ n. n
        ≡ among_need (option_copied body.entry) (edits_of edits.now) (arc_value twig.now)) }
{
    let pieces = pieces_of_cell(alloc, twig)?;
    let leaves = leaves_of(alloc, body, edits, twig)?;
    let more = leaves.checked_mul(POINTER_ROOM).ok_or(AllocError)?;
    let bytes = twig_bytes(pieces.as_slice());
    Ok(bytes.checked_add(more).ok_or(AllocError)?)
}

// How many leaves come at most to a twig. The body stands in no extents afterwards, so the values
// are those of edits without one.
fn leaves_of(
    alloc: Global,
    body: Option<&SizedBody>,
    edits: &Edits,
    twig: &Arc<Cell>,
) -> Result<u64, Memory>
    requires twig { (arc_value twig.now).level ≡ 2 }
    requires edits { AreExtentEdits (option_copied body) (edits_of edits.now) }
    requires in_leaves { IsInLeaves (option_copied body) }
    ensures { IfOk result (λ n. n
        ≡ put_among (option_copied body.entry) (edits_of edits.now)
        (node_of (arc_value twig.now))) }
{
    let count = cells_coming(alloc, None, edits, from_ref(twig))?;
    Ok(count)
}

/// How many leaves come at most to the twigs among some cells among whose extents values come; the
/// body, if there is one, stands in no extents afterwards. The only error is want of memory, where
/// 2^64 leaves or more may come too (docs/volume.md, "Bodies in extents").
pub fn leaves_put(
    alloc: Global,
    body: Option<&SizedBody>,
    edits: &Edits,
    cells: &[Arc<Cell>],
) -> Result<u64, Memory>
    requires edits { AreExtentEdits (option_copied body) (edits_of edits.now) }
    requires in_leaves { IsInLeaves (option_copied body) }
    ensures { IfOk result (λ n. n
        ≡ leaves_put (option_copied body.entry) (edits_of edits.now)
        (map (λ c. arc_value c) cells.now)) }
{
    let count = cells_coming(alloc, None, edits, cells)?;
    Ok(count)
}

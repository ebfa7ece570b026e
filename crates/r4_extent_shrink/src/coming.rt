//! How many twigs may come beside those twigs of a task that lose blocks (docs/volume.md, "Bodies
//! in extents").

ghost use Rattle.std.specs.Prelude.{◌≡◌, ◌++◌, ◌∷◌, [], IfOk, OnOk, Some, map, true};
ghost use Rattle.std.specs.Arc.{arc_value};
ghost use Rattle.r4_content.specs.Held.{edits_of};
ghost use Rattle.r4_extent_growth.specs.r4_extent_demands.Sizes.{IsSizedBody};
ghost use Rattle.r4_extent_growth.specs.r4_extent_change.Among.{is_losing, losing_twigs};
ghost use Rattle.r4_extent_growth.specs.Coming.{coming_beside, count_of};
ghost use Rattle.r4_extent_shrink.specs.Shrinking.{twigs_losing};

use r4_base::{Memory, NodeId};
use r4_content::Edits;
use r4_extent_growth::{Cell, SizedBody, extra_twigs, gone_of, pieces_after};
use std::alloc::Global;
use std::sync::Arc;

/// For each twig among some cells that loses blocks of a body in extents, in their order, its
/// number, and how many twigs may come beside it once it has the pieces that it is to have after
/// the edits. The only error is want of memory (docs/volume.md, "Bodies in extents").
pub fn twigs_losing(
    alloc: Global,
    body: &SizedBody,
    edits: &Edits,
    cells: &[Arc<Cell>],
) -> Result<Vec<(NodeId, u64)>, Memory>
    requires sized { IsSizedBody body.now }
    requires in_extents { body.now.in_extents ≡ true }
    ensures { IfOk result (λ v. map count_of v.items
        ≡ twigs_losing body.now (edits_of edits.now) (map (λ c. arc_value c) cells.now)) }
{
    let mut twigs = Vec::new(alloc);
    for cell in cells {
        add(alloc, &mut twigs, body, edits, cell)?;
    }
    Ok(twigs)
}

// Puts a cell behind others, with how many twigs may come beside it, where it is a twig that loses
// blocks.
fn add(
    alloc: Global,
    twigs: &mut Vec<(NodeId, u64)>,
    body: &SizedBody,
    edits: &Edits,
    cell: &Cell,
) -> Result<(), Memory>
    requires sized { IsSizedBody body.now }
    requires in_extents { body.now.in_extents ≡ true }
    ensures { OnOk result (map count_of twigs.new.items ≡ map count_of twigs.old.items
        ++ map (coming_beside body.now (edits_of edits.now))
        (losing_twigs body.now (cell.now ∷ []))) }
{
    if !is_losing(body, cell) {
        return Ok(());
    }
    let pieces = pieces_after(alloc, Some(body), edits, cell, &[])?;
    twigs.push((cell.id(), extra_twigs(pieces.as_slice())))?;
    Ok(())
}

// Whether a cell is a twig that loses blocks.
pub(crate) fn is_losing(body: &SizedBody, cell: &Cell) -> bool
    requires sized { IsSizedBody body.now }
    requires in_extents { body.now.in_extents ≡ true }
    ensures { result ≡ is_losing body.now cell.now }
{
    let gone = gone_of(body, cell);
    cell.level() == 2 && gone.from.is_below(gone.to)
}

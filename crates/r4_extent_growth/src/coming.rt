//! How many twigs may come beside those twigs of a task whose pieces change (docs/volume.md,
//! "Bodies in extents").

ghost use Rattle.std.specs.Prelude.{◌≡◌, ◌++◌, ◌∷◌, [], IfOk, OnOk, Some, map};
ghost use Rattle.std.specs.Arc.{arc_value};
ghost use Rattle.r4_content.specs.Held.{edits_of};
ghost use Rattle.r4_extent_change.specs.r4_measure.r4_path.Grafts.{extra_twigs};
ghost use Rattle.r4_twig_asks.specs.r4_extent_demands.Sizes.{AreExtentEdits};
ghost use Rattle.r4_extent_change.specs.Beside.{is_turning, turning_among};
ghost use Rattle.r4_extent_growth.specs.Coming.{coming_beside, count_of, twigs_coming};

use r4_base::{Memory, NodeId};
use r4_content::Edits;
use r4_extent_change::Cell;
use r4_twig_asks::{SizedBody, TwigPiece, changes_pieces, pieces_after, twig_bytes};
use std::alloc::Global;
use std::sync::Arc;

/// How many bytes of items and their headers a twig has room for (docs/volume.md, "Twigs").
const TWIG_ROOM: u64 = 4068;

/// A twig comes beside another one for so many bytes at least that are too many for it.
const BYTES_FOR_TWIG: u64 = 1024;

/// For each twig among some cells whose pieces change, in their order, its number, and how many
/// twigs may come beside it once it has the pieces that it is to have after the edits. The only
/// error is want of memory (docs/volume.md, "Bodies in extents").
pub fn twigs_coming(
    alloc: Global,
    body: &SizedBody,
    edits: &Edits,
    cells: &[Arc<Cell>],
) -> Result<Vec<(NodeId, u64)>, Memory>
    requires { AreExtentEdits (Some body.now) (edits_of edits.now) }
    ensures { IfOk result (λ v. map count_of v.items
        ≡ twigs_coming body.now (edits_of edits.now) (map (λ c. arc_value c) cells.now)) }
{
    let mut twigs = Vec::new(alloc);
    for cell in cells {
        add(alloc, &mut twigs, body, edits, cell)?;
    }
    Ok(twigs)
}

// Puts a cell behind others, with how many twigs may come beside it, where it is a twig whose
// pieces change.
fn add(
    alloc: Global,
    twigs: &mut Vec<(NodeId, u64)>,
    body: &SizedBody,
    edits: &Edits,
    cell: &Cell,
) -> Result<(), Memory>
    requires { AreExtentEdits (Some body.now) (edits_of edits.now) }
    ensures { OnOk result (map count_of twigs.new.items ≡ map count_of twigs.old.items
        ++ map (coming_beside body.now (edits_of edits.now))
        (turning_among body.now (edits_of edits.now) (cell.now ∷ []))) }
{
    if !is_turning(body, edits, cell) {
        return Ok(());
    }
    let pieces = pieces_after(alloc, Some(body), edits, cell, &[])?;
    twigs.push((cell.id(), extra_twigs(pieces.as_slice())))?;
    Ok(())
}

// Whether a cell is a twig whose pieces change.
pub(crate) fn is_turning(body: &SizedBody, edits: &Edits, cell: &Cell) -> bool
    requires { AreExtentEdits (Some body.now) (edits_of edits.now) }
    ensures { result ≡ is_turning body.now (edits_of edits.now) cell.now }
{
    cell.level() == 2 && changes_pieces(Some(body), edits, cell)
}

/// How many twigs may come beside one of these pieces: one for each 1024 bytes, or fewer, that are
/// too many for it (docs/volume.md, "Bodies in extents").
pub fn extra_twigs(pieces: &[TwigPiece]) -> u64
    ensures { result ≡ extra_twigs pieces.now }
{
    twig_bytes(pieces)
        .saturating_sub(TWIG_ROOM)
        .div_ceil(BYTES_FOR_TWIG)
}

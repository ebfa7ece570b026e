//! Twigs beside each other that get other pieces (docs/volume.md, "Edits").

ghost use Rattle.std.specs.Prelude.{◌≡◌, ◌+◌, ◌≤◌, ℕ, map, IfOk};
ghost use Rattle.std.specs.Arc.{arc_value};
ghost use Rattle.r4_row_edit.specs.Twigs.{AreTwigsWith, MayGet};

use crate::repacking::numbers_for;
use r4_base::{Memory, TWIG, get32};
use r4_branch::{TwigPiece, pack_twigs};
use r4_cell::{Cell, Fresh};
use r4_squeeze::{filled_of, numbered};
use std::alloc::Global;
use std::sync::Arc;

/// Twigs with these pieces in the place of others that stand beside each other: each is filled before the next one is
/// begun, and a unit that continues the one before it stands in its item. They have the numbers of the row from the left
/// on, and then fresh ones; where the pieces may be shared out in some way among the old twigs and so many more, there are
/// no more than those. The only error is want of memory; then numbers may have been taken (docs/volume.md, "Edits").
pub fn twigs_with(
    alloc: Global,
    row: &[Arc<Cell>],
    pieces: &[TwigPiece],
    fresh: &mut Fresh,
) -> Result<Vec<Arc<Cell>>, Memory>
    requires { (more : ℕ) × (MayGet (map (λ c. arc_value c) row.now) pieces.now more
        × (fresh.old.next + more ≤ fresh.old.end)) }
    ensures { IfOk result (λ v. AreTwigsWith (map (λ c. arc_value c) row.now) pieces.now fresh.old
        fresh.new (map (λ c. arc_value c) v.items)) }
{
    let first = &row[0];
    let mkfs_id = get32(first.block().bytes(), 12);
    let twigs = pack_twigs(alloc, first.lo(), mkfs_id, pieces)?;
    let filled = filled_of(alloc, twigs)?;
    let ids = numbers_for(alloc, row, filled.len(), fresh)?;
    let hi = row[row.len() - 1].hi();
    numbered(alloc, TWIG, ids.as_slice(), filled, hi)
}

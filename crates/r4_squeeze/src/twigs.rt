//! A slum of twigs, filled from the left (docs/volume.md, "Squeezing").

ghost use Rattle.std.specs.Prelude.{◌≡◌, ◌<◌, ℕ, List, map, IfOk};
ghost use Rattle.std.specs.Arc.{arc_value};
ghost use Rattle.r4_branch.specs.declared.piece.TwigPiece.{TwigPiece as TwigPieceSeen};
ghost use Rattle.r4_path.specs.Steps.{Follow};
ghost use Rattle.r4_rows.specs.Fewest.{joined};
ghost use Rattle.r4_rows.specs.Packed.{AreTheirPieces};
ghost use Rattle.r4_squeeze.specs.Packing.{PacksSlumTwigs, filled_twig};

use crate::filled::Filled;
use r4_base::{Memory, get32};
use r4_branch::{Twig, TwigPiece, pack_twigs};
use r4_cell::Cell;
use r4_path::pieces_of_cell;
use std::alloc::Global;
use std::sync::Arc;

/// Twigs with the pieces of all twigs of a slum, which is not empty: each is full before the next one is begun, and
/// a unit that continues the one before it stands in its item. All have the first one's mkfs_id.
pub fn fill_twigs(alloc: Global, slum: &[Arc<Cell>]) -> Result<Vec<Filled>, Memory>
    requires slum { (from : ℕ) × ((to : ℕ) × ((from < to)
        × Follow 2 from to (map (λ c. arc_value c) slum.now))) }
    ensures { IfOk result (λ v. (from to : ℕ) → from < to
        → Follow 2 from to (map (λ c. arc_value c) slum.now)
        → PacksSlumTwigs from to (map (λ c. arc_value c) slum.now) v.items) }
{
    let pieces = pieces_of_all(alloc, slum)?;
    let first = &slum[0];
    let mkfs_id = get32(first.block().bytes(), 12);
    let twigs = pack_twigs(alloc, first.lo(), mkfs_id, pieces.as_slice())?;
    filled_of(alloc, twigs)
}

/// The pieces of all twigs, one twig's after the other's. The twigs stand beside each other.
pub fn pieces_of_all(alloc: Global, slum: &[Arc<Cell>]) -> Result<Vec<TwigPiece>, Memory>
    requires { (from : ℕ) × ((to : ℕ) × Follow 2 from to (map (λ c. arc_value c) slum.now)) }
    ensures { IfOk result (λ v. (each : List (List TwigPieceSeen))
        × AreTheirPieces (map (λ c. arc_value c) slum.now) each × (v.items ≡ joined each)) }
{
    let mut pieces = Vec::new(alloc);
    for cell in slum {
        let mut more = pieces_of_cell(alloc, cell)?;
        pieces.append(&mut more)?;
    }
    Ok(pieces)
}

/// The twigs as nodes that were filled. The only error is want of memory.
pub fn filled_of(alloc: Global, twigs: Vec<Twig>) -> Result<Vec<Filled>, Memory>
    ensures { IfOk result (λ v. v.items ≡ map filled_twig twigs.items) }
{
    let mut filled = Vec::with_capacity(alloc, twigs.len())?;
    for Twig { lo, block } in twigs {
        filled.push(Filled { lo, block })?;
    }
    Ok(filled)
}

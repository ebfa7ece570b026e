//! Twigs beside each other that get pieces as these are parted (docs/volume.md, "Rows that are packed anew").

ghost use Rattle.std.specs.Prelude.{◌≡◌, ◌++◌, ◌≤◌, ℕ, IfOk, List, OnOk, map};
ghost use Rattle.std.specs.Arc.{arc_value};
ghost use Rattle.r4_cell.specs.declared.change.Fresh.{Fresh as FreshSeen};
ghost use Rattle.r4_rows.specs.Fewest.{joined};
ghost use Rattle.r4_squeeze.specs.declared.filled.Filled.{Filled as FilledSeen};
ghost use Rattle.r4_row_edit.specs.Climbing.{row_of};
ghost use Rattle.r4_row_edit.specs.Parting.{AreParts, ArePartsIn, CanPart, HaveParts, IsParted, MayPart};
ghost use Rattle.r4_row_edit.specs.Twigs.{AreTwigsWith};

use crate::climbing::RowChange;
use crate::shifting::with_rows;
use r4_base::{Memory, TWIG, get32};
use r4_branch::{TwigPiece, pack_twigs};
use r4_cell::{Cell, Cells, Change, Fresh};
use r4_squeeze::{Filled, filled_of, numbered, numbers_of};
use std::alloc::Global;
use std::sync::Arc;

/// Gives twigs that stand beside each other these pieces, each part to a twig of its own, where leaves go below them and
/// leaves and data blocks come, and packs the rows above anew, the lowest first, up to one cell, which stays one: as one
/// change. The parts are no more than the twigs, each has one piece at least, and takes up 4068 bytes at most. No number is
/// taken, and the root stays. The only error is want of memory (docs/volume.md, "Rows that are packed anew").
pub fn shift_parted(
    alloc: Global,
    below: RowChange,
    parts: &[Vec<TwigPiece>],
    row: Cells,
    above: Vec<Cells>,
) -> Result<Change, Memory>
    requires { CanPart row (map (λ p. p.items) parts.now) above.items }
    ensures { IfOk result (IsParted (row_of below) row (map (λ p. p.items) parts.now) above.items) }
{
    let new = parted_twigs(alloc, row.as_slice(), parts)?;
    let twigs = RowChange {
        old: row,
        new: Cells::from_vec(new),
    };
    let mut none = Fresh { next: 0, end: 0 };
    with_rows(alloc, below, twigs, above, &mut none)
}

// Twigs of the parts in the place of a row, with its first numbers.
fn parted_twigs(
    alloc: Global,
    row: &[Arc<Cell>],
    parts: &[Vec<TwigPiece>],
) -> Result<Vec<Arc<Cell>>, Memory>
    requires { MayPart (map (λ c. arc_value c) row.now) (map (λ p. p.items) parts.now) }
    ensures have { IfOk result (λ v. HaveParts (map (λ c. arc_value c) v.items)
        (map (λ p. p.items) parts.now)) }
    ensures twigs { IfOk result (λ v. (f : FreshSeen)
        → AreTwigsWith (map (λ c. arc_value c) row.now)
        (joined (map (λ p. p.items) parts.now)) f f (map (λ c. arc_value c) v.items)) }
{
    let first = &row[0];
    let mkfs_id = get32(first.block().bytes(), 12);
    let mut filled = Vec::new(alloc);
    fill_parts(alloc, mkfs_id, parts, &mut filled)?;
    let ids = numbers_of(alloc, row)?;
    let hi = row[row.len() - 1].hi();
    numbered(alloc, TWIG, ids.as_slice(), filled, hi)
}

// A twig of each part comes behind the nodes.
fn fill_parts(
    alloc: Global,
    mkfs_id: u32,
    parts: &[Vec<TwigPiece>],
    filled: &mut Vec<Filled>,
) -> Result<(), Memory>
    requires { (to : ℕ) × AreParts to (map (λ p. p.items) parts.now) }
    ensures { OnOk result ((more : List FilledSeen) × (filled.new.items ≡ filled.old.items ++ more)
        × ((to : ℕ) → AreParts to (map (λ p. p.items) parts.now)
        → ArePartsIn mkfs_id to (map (λ p. p.items) parts.now) more)) }
{
    match parts.split_first() {
        None => Ok(()),
        Some((part, rest)) => {
            let twigs = pack_twigs(alloc, part[0].key, mkfs_id, part.as_slice())?;
            let mut one = filled_of(alloc, twigs)?;
            filled.append(&mut one)?;
            fill_parts(alloc, mkfs_id, rest, filled)
        }
    }
}

//! Pieces that are put among others (docs/volume.md, "Leaves").

ghost use Rattle.std.specs.Prelude.{◌≡◌, ℕ, ◌++◌, reverse, OnOk, IfOk};
ghost use Rattle.r4_base.specs.Key.{rank};
ghost use Rattle.r4_leaf.specs.Leaves.{AreApart};
ghost use Rattle.r4_leaf.specs.Pieces.{Follow, Moves, units_of};
ghost use Rattle.r4_leaf.specs.Units.{put_units};

use crate::piece::Piece;
use r4_base::{Key, Memory};
use std::alloc::Global;

/// The given pieces where their keys belong among the others, the last one first.
pub(crate) fn put_pieces<'a>(
    alloc: Global,
    mut pieces: Vec<Piece<'a>>,
    mut given: Vec<Piece<'a>>,
) -> Result<Vec<Piece<'a>>, Memory>
    requires pieces { (lo : ℕ) × (hi : ℕ) × Follow lo hi pieces.items }
    requires given { (lo : ℕ) × (hi : ℕ) × Follow lo hi given.items }
    requires apart { AreApart (units_of pieces.items) (units_of given.items) }
    ensures units { IfOk result (λ v. units_of (reverse v.items) ≡ put_units (units_of given.entry.items) (units_of pieces.entry.items)) }
    ensures follow { IfOk result (λ v. (lo hi : ℕ) → Follow lo hi pieces.entry.items → Follow lo hi given.entry.items → Follow lo hi (reverse v.items)) }
{
    let mut merged = Vec::new(alloc);
    while let Some(piece) = given.pop() {
        move_above(&mut merged, &mut pieces, &piece.key())?;
        merged.push(piece)?;
    }
    move_all(&mut merged, pieces)?;
    Ok(merged)
}

/// Moves the pieces behind the last one with a key below this key before those that were moved, the last one first.
fn move_above<'a>(
    merged: &mut Vec<Piece<'a>>,
    pieces: &mut Vec<Piece<'a>>,
    key: &Key,
) -> Result<(), Memory>
    ensures { OnOk result (Moves (rank key.now) pieces.old.items merged.old.items pieces.new.items merged.new.items) }
{
    while let Some(piece) = pieces.pop() {
        if piece.key().is_below(*key) {
            pieces.push(piece)?;
            return Ok(());
        }
        merged.push(piece)?;
    }
    Ok(())
}

/// Moves all the pieces before those that were moved.
fn move_all<'a>(merged: &mut Vec<Piece<'a>>, mut pieces: Vec<Piece<'a>>) -> Result<(), Memory>
    ensures { OnOk result (reverse merged.new.items ≡ pieces.entry.items ++ reverse merged.old.items) }
{
    while let Some(piece) = pieces.pop() {
        merged.push(piece)?;
    }
    Ok(())
}

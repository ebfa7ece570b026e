//! Pieces that are left where units are cut out (docs/volume.md, "Leaves").

ghost use Rattle.std.specs.Prelude.{◌≡◌, ℕ, ◌+◌, ◌-◌, ◌≤◌, ◌<◌, ◌==◌, length, reverse, take, drop, slice_index, [], ◌∷◌, OnOk, IfOk, if◌then◌else◌, nat_le};
ghost use Rattle.r4_base.specs.Cell.{bytes_from};
ghost use Rattle.r4_base.specs.Key.{rank, offset_of};
ghost use Rattle.r4_leaf.specs.Pieces.{Follow, IsSound, Leads, piece_end, piece_key, piece_units, units_of};
ghost use Rattle.r4_leaf.specs.Units.{cut_units};

use crate::piece::Piece;
use crate::run::Run;
use r4_base::{Key, Memory};
use std::alloc::Global;

/// The pieces without the units from one key up to another, the last one first.
pub(crate) fn cut_pieces<'a>(
    alloc: Global,
    mut pieces: Vec<Piece<'a>>,
    from: &Key,
    to: &Key,
) -> Result<Vec<Piece<'a>>, Memory>
    requires { (lo : ℕ) × (hi : ℕ) × Follow lo hi pieces.items }
    ensures units { IfOk result (λ v. units_of (reverse v.items) ≡ cut_units (rank from.now) (rank to.now) (units_of pieces.entry.items)) }
    ensures follow { IfOk result (λ v. (lo hi : ℕ) → Follow lo hi pieces.entry.items → Follow lo hi (reverse v.items)) }
{
    let mut left = Vec::new(alloc);
    while let Some(piece) = pieces.pop() {
        keep(&mut left, piece, from, to)?;
    }
    Ok(left)
}

/// Puts what is left of a piece before the pieces that are kept.
fn keep<'a>(left: &mut Vec<Piece<'a>>, piece: Piece<'a>, from: &Key, to: &Key) -> Result<(), Memory>
    requires { IsSound piece }
    ensures { OnOk result (Leads left.old.items (rank (piece_key piece.entry)) (piece_end piece.entry) (cut_units (rank from.now) (rank to.now) (piece_units piece.entry)) left.new.items) }
{
    if let Piece::Bytes(key, bytes) = piece {
        return keep_bytes(left, key, bytes, from, to);
    }
    let key = piece.key();
    if key.is_below(*from) || !key.is_below(*to) {
        left.push(piece)?;
    }
    Ok(())
}

/// Puts what is left of a run of bytes before the pieces that are kept: those below the first key, and those from the other
/// one on.
fn keep_bytes<'a>(
    left: &mut Vec<Piece<'a>>,
    key: Key,
    bytes: Run<'a>,
    from: &Key,
    to: &Key,
) -> Result<(), Memory>
    requires { IsSound (Piece.Bytes key bytes) }
    ensures { OnOk result (Leads left.old.items (rank key) (rank key + length bytes.entry)
        (cut_units (rank from.now) (rank to.now) (piece_units (Piece.Bytes key bytes.entry)))
        left.new.items) }
{
    let count = bytes.len();
    let first = below(&key, count, from);
    let end = below(&key, count, to);
    if end <= first {
        return keep_part(left, key, bytes);
    }
    keep_part(left, behind(&key, end), bytes.tail(end))?;
    keep_part(left, key, bytes.head(first))
}

/// Puts a run of bytes before the pieces that are kept, if it has one.
fn keep_part<'a>(left: &mut Vec<Piece<'a>>, key: Key, bytes: Run<'a>) -> Result<(), Memory>
    requires { offset_of key + length bytes ≤ 16384 }
    ensures { OnOk result (Leads left.old.items (rank key) (rank key + length bytes.entry)
        (bytes_from (rank key) bytes.entry) left.new.items) }
{
    if !bytes.is_empty() {
        left.push(Piece::Bytes(key, bytes))?;
    }
    Ok(())
}

/// How many of the keys of `count` bytes, from a key on, are below another key.
fn below(key: &Key, count: usize, end: &Key) -> usize
    requires { offset_of key.now + count ≤ 16384 }
    ensures within { result ≤ count }
    ensures before { (k : ℕ) → k < result → rank key.now + k < rank end.now }
    ensures rest { (k : ℕ) → result ≤ k → k < count → rank end.now ≤ rank key.now + k }
{
    if !key.is_below(*end) {
        return 0;
    }
    if !end.is_below(behind(key, count)) {
        return count;
    }
    (end.el[3] - key.el[3]) as usize
}

/// The key so many bytes behind another.
#[tactic(auto, unfolding(r4_base::specs::Key::rank))]
pub(crate) fn behind(key: &Key, count: usize) -> Key
    requires { offset_of key.now + count ≤ 16384 }
    ensures rank { rank result ≡ rank key.now + count }
    ensures offset { offset_of result ≡ offset_of key.now + count }
    ensures object { slice_index result.el 0 ≡ slice_index key.now.el 0 }
{
    Key {
        el: [key.el[0], key.el[1], key.el[2], key.el[3] + count as u64],
    }
}

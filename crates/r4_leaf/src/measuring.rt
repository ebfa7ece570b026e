//! How many bytes pieces take up in leaves (docs/volume.md, "Leaves").

ghost use Rattle.std.specs.Prelude.{◌≡◌, ◌^◌, ◌-◌, ℕ, Option, min};
ghost use Rattle.r4_base.specs.Key.{IsKey, rank};
ghost use Rattle.r4_leaf.specs.Measure.{IsTip, last_or};
ghost use Rattle.r4_leaf.specs.Pieces.{Follow, IsSound, piece_units, units_of};
ghost use Rattle.r4_leaf.specs.Units.{LeafUnit, bytes_behind, continues_entries, continues_tail, leaf_bytes};

use crate::cutting::behind;
use crate::entries::need_of;
use crate::piece::Piece;
use r4_base::{ITEM_HEADER, Key};

/// What may continue the last item: entries of one directory, or the byte of a tail at a key.
#[derive(Clone, Copy)]
pub(crate) enum Tip {
    Alone,
    Directory(u64),
    Tail(Key),
}

/// How many bytes the pieces take up in leaves, headers and all, at most 2^64 - 1.
pub(crate) fn bytes_of(pieces: &[Piece<'_>]) -> u64
    requires { (lo : ℕ) × (hi : ℕ) × Follow lo hi pieces.now }
    ensures { result ≡ min (leaf_bytes (units_of pieces.now)) (2 ^ 64 - 1) }
{
    let mut total: u64 = 0;
    let mut tip = Tip::Alone;
    for piece in pieces {
        total = total.saturating_add(weigh(tip, piece));
        tip = tip_of(piece);
    }
    total
}

// How many bytes a piece takes up behind others.
fn weigh(tip: Tip, piece: &Piece<'_>) -> u64
    requires { IsSound piece.now }
    ensures { (before : Option LeafUnit) → IsTip tip before
        → result ≡ bytes_behind before (piece_units piece.now) }
{
    let header = u64::from(ITEM_HEADER);
    match piece {
        Piece::Stat(_, body) => header + body.len() as u64,
        Piece::Entry(entry) => {
            let own = u64::from(need_of(entry, 1));
            if continues_entry(tip, &entry.key) {
                own
            } else {
                own + header + 2
            }
        }
        Piece::Bytes(key, bytes) => {
            let own = bytes.len() as u64;
            if continues_byte(tip, key) {
                own
            } else {
                own + header
            }
        }
    }
}

// Whether an entry of this key continues the last item.
fn continues_entry(tip: Tip, key: &Key) -> bool
    requires { IsKey key.now }
    ensures { (before : Option LeafUnit) → IsTip tip before
        → result ≡ continues_entries before (rank key.now) }
{
    match tip {
        Tip::Directory(number) => number == key.el[0],
        _ => false,
    }
}

// Whether a byte of this key continues the last item.
fn continues_byte(tip: Tip, key: &Key) -> bool
    ensures { (before : Option LeafUnit) → IsTip tip before
        → result ≡ continues_tail before (rank key.now) }
{
    match tip {
        Tip::Tail(next) => next.is_same(*key),
        _ => false,
    }
}

// What may continue the last unit of a piece.
fn tip_of(piece: &Piece<'_>) -> Tip
    requires { IsSound piece.now }
    ensures { (before : Option LeafUnit) → IsTip result (last_or before (piece_units piece.now)) }
{
    match piece {
        Piece::Stat(_, _) => Tip::Alone,
        Piece::Entry(entry) => Tip::Directory(entry.key.el[0]),
        Piece::Bytes(key, bytes) => Tip::Tail(behind(key, bytes.len())),
    }
}

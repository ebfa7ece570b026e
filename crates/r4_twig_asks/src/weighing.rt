//! What pieces weigh in a twig (docs/volume.md, "Reach").

ghost use Rattle.std.specs.Prelude.{◌≡◌, ◌≤◌};
ghost use Rattle.std.specs.Option.{option_map};
ghost use Rattle.r4_base.specs.Key.{rank};
ghost use Rattle.r4_extent_demands.specs.r4_branch.Pieces.{part_bytes, twig_bytes};

use r4_base::{ITEM_HEADER, Key};
use r4_extent_demands::{POINTER_ROOM, TwigPart, TwigPiece, unit_end};

/// How many bytes a unit of an extent has, without a header.
const UNIT_BYTES: u64 = 16;

/// How many bytes pieces take up in a twig, with the headers of the items in which they stand: a unit that continues
/// the one before it stands in its item (docs/volume.md, "Reach").
pub fn twig_bytes(pieces: &[TwigPiece]) -> u64
    ensures { result ≡ twig_bytes pieces.now }
{
    let mut bytes = 0;
    let mut end = None;
    for piece in pieces {
        bytes += piece_bytes(end, piece);
        end = unit_end(piece);
    }
    bytes
}

// How many bytes a piece takes up behind a unit that ends at a key, if one does.
fn piece_bytes(end: Option<Key>, piece: &TwigPiece) -> u64
    ensures bytes { result
        ≡ part_bytes (option_map rank end) (rank piece.now.key) piece.now.part }
    ensures few { result ≤ 54 }
{
    let TwigPart::Blocks(_) = piece.part else {
        return POINTER_ROOM;
    };
    match end {
        Some(key) if key.is_same(piece.key) => UNIT_BYTES,
        _ => UNIT_BYTES + u64::from(ITEM_HEADER),
    }
}

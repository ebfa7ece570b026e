//! The pieces of a twig's cell (docs/volume.md, "Twigs").

ghost use Rattle.std.specs.Prelude.{◌≡◌, drop, IfOk};
ghost use Rattle.r4_base.specs.Key.{rank};
ghost use Rattle.r4_graft.specs.r4_branch.Pieces.{next_of};
ghost use Rattle.r4_graft.specs.Splices.{place};
ghost use Rattle.r4_path.specs.TwigPieces.{ArePiecesOf, put_pieces, twig_pieces};

use r4_base::{Key, Memory};
use r4_graft::{TwigPiece, pieces_of, place_of, splice};
use r4_patch::Cell;
use std::alloc::Global;

/// The pieces of a twig.
pub fn pieces_of_cell(alloc: Global, twig: &Cell) -> Result<Vec<TwigPiece>, Memory>
    requires { twig.now.level ≡ 2 }
    ensures { IfOk result (λ v. ArePiecesOf twig.now v.items) }
{
    let pieces = pieces_of(alloc, &twig.node())?;
    Ok(pieces)
}

/// The pieces of a twig with others where their key belongs.
pub fn pieces_with(
    alloc: Global,
    twig: &Cell,
    key: &Key,
    more: &[TwigPiece],
) -> Result<Vec<TwigPiece>, Memory>
    requires { twig.now.level ≡ 2 }
    ensures are { IfOk result (λ v. ArePiecesOf twig.now (twig_pieces twig.now)) }
    ensures with { IfOk result (λ v. v.items ≡ put_pieces key.now more.now (twig_pieces twig.now)) }
{
    let pieces = pieces_of_cell(alloc, twig)?;
    let all = put_among(alloc, pieces.as_slice(), key, more)?;
    Ok(all)
}

/// The pieces with others where their key belongs.
pub fn put_among(
    alloc: Global,
    pieces: &[TwigPiece],
    key: &Key,
    more: &[TwigPiece],
) -> Result<Vec<TwigPiece>, Memory>
    ensures { IfOk result (λ v. v.items ≡ put_pieces key.now more.now pieces.now) }
{
    let at = place_of(pieces, key);
    splice(alloc, pieces, at, at, more)
}

/// Where the range of a leaf that is put at a key among a twig's pieces ends: at the next piece's key, or where the twig does.
pub fn end_behind(pieces: &[TwigPiece], key: &Key, hi: Key) -> Key
    ensures { rank result ≡ next_of (rank hi) (drop (place (rank key.now) pieces.now) pieces.now) }
{
    match pieces.get(place_of(pieces, key)) {
        Some(piece) => piece.key,
        None => hi,
    }
}

//! Pieces of a twig in the place of those between two keys (docs/volume.md, "Edits").

ghost use Rattle.std.specs.Prelude.{◌≡◌, ℕ, IfOk};
ghost use Rattle.r4_base.specs.Key.{rank};
ghost use Rattle.r4_extent_edit.specs.Between.{EndsAt, pieces_over};
ghost use Rattle.r4_work.specs.r4_graft.Splices.{IsBorder};
ghost use Rattle.r4_work.specs.r4_path.TwigPieces.{ArePiecesOf, twig_pieces};

use r4_base::{BLOCK_BYTES, Key, Memory};
use r4_work::{Cell, TwigPart, TwigPiece, pieces_parted, place_of, splice};
use std::alloc::Global;

// A twig's pieces, parted at both keys, with others in the place of those between them. The first
// key lies at a border of blocks.
#[tactic(auto, using(r4_graft::proofs::Placed::place_within))]
pub(crate) fn pieces_put_over(
    alloc: Global,
    twig: &Cell,
    from: &Key,
    to: &Key,
    others: &[TwigPiece],
) -> Result<Vec<TwigPiece>, Memory>
    requires level { twig.now.level ≡ 2 }
    requires border { ArePiecesOf twig.now (twig_pieces twig.now)
        → IsBorder (rank from.now) (twig_pieces twig.now) }
    ensures are { IfOk result (λ v. ArePiecesOf twig.now (twig_pieces twig.now)) }
    ensures over { IfOk result (λ v. v.items
        ≡ pieces_over (rank from.now) (rank to.now) others.now twig.now) }
{
    let _node = twig.node();
    let pieces = pieces_parted(alloc, twig, from, to)?;
    let at = place_of(pieces.as_slice(), from);
    let end = place_of(pieces.as_slice(), to);
    let all = splice(alloc, pieces.as_slice(), at, end, others)?;
    Ok(all)
}

// The key behind the pieces of an extent.
pub(crate) fn key_behind(extent: &[TwigPiece]) -> Key
    requires { (to : ℕ) × EndsAt to extent.now }
    ensures { (to : ℕ) → EndsAt to extent.now → rank result ≡ to }
{
    let last = &extent[extent.len() - 1];
    let TwigPart::Blocks(unit) = last.part else {
        return last.key;
    };
    last.key.behind(BLOCK_BYTES * unit.width)
}

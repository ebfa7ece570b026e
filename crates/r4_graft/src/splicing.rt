//! Pieces with others in the place of some (docs/volume.md, "Twigs").

ghost use Rattle.std.specs.Prelude.{◌≡◌, ◌++◌, ◌≤◌, length, IfOk, OnOk};
ghost use Rattle.r4_base.specs.Key.{rank};
ghost use Rattle.r4_graft.specs.Splices.{place, spliced};

use r4_base::{Key, Memory};
use r4_branch::TwigPiece;
use std::alloc::Global;

/// How many of a twig's pieces begin below the key.
pub fn place_of(pieces: &[TwigPiece], key: &Key) -> usize
    ensures { result ≡ place (rank key.now) pieces.now }
{
    let mut count = 0;
    while count < pieces.len() && pieces[count].key.is_below(*key) {
        count += 1;
    }
    count
}

/// A twig's pieces with others in the place of those from `from` up to `to`.
pub fn splice(
    alloc: Global,
    pieces: &[TwigPiece],
    from: usize,
    to: usize,
    middle: &[TwigPiece],
) -> Result<Vec<TwigPiece>, Memory>
    requires from { from ≤ length pieces.now }
    requires to { to ≤ length pieces.now }
    ensures { IfOk result (λ v. v.items ≡ spliced from to middle.now pieces.now) }
{
    let mut spliced = Vec::new(alloc);
    add(&mut spliced, &pieces[..from])?;
    add(&mut spliced, middle)?;
    add(&mut spliced, &pieces[to..])?;
    Ok(spliced)
}

/// Puts more pieces behind the others.
fn add(pieces: &mut Vec<TwigPiece>, more: &[TwigPiece]) -> Result<(), Memory>
    ensures { OnOk result (pieces.new.items ≡ pieces.old.items ++ more.now) }
{
    pieces.extend_from_slice(more)?;
    Ok(())
}

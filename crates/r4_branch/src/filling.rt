//! Pieces that are put into a twig while there is room (docs/volume.md, "Twigs").

ghost use Rattle.std.specs.Prelude.{◌≡◌, ℕ, ◌≤◌, List, true, false};
ghost use Rattle.r4_base.specs.Key.{rank};
ghost use Rattle.r4_base.specs.Node.{mkfs_id_of};
ghost use Rattle.r4_node40.specs.Loan.{bytes_of, with_bytes};
ghost use Rattle.r4_branch.specs.Filling.{IsFilled, IsFullFor, Puts, Spells};
ghost use Rattle.r4_branch.specs.Pieces.{IsSound};
ghost use Rattle.r4_branch.specs.declared.piece.TwigPiece.{TwigPiece as PieceSeen};

use crate::opening::put_bytes_at;
use crate::piece::{TwigPart, TwigPiece};
use crate::placing::place_for;
use crate::spelling::{spell_pointer, spell_unit};
use r4_base::{EXTENT, POINTER};
use r4_node40::NodeMut;

/// Puts a piece behind what the twig has, and answers whether there was room.
pub(crate) fn put(node: &mut NodeMut<'_>, piece: &TwigPiece) -> bool
    requires filled { (lo : ℕ) × (mid : ℕ) × (ps : List PieceSeen) × IsFilled lo mid ps (bytes_of node.old) × (mid ≤ rank piece.now.key) }
    requires sound { IsSound piece.now }
    ensures block { node.new ≡ with_bytes node.old (bytes_of node.new) }
    ensures id { mkfs_id_of (bytes_of node.new) ≡ mkfs_id_of (bytes_of node.old) }
    ensures puts { result ≡ true → Puts piece.now (bytes_of node.old) (bytes_of node.new) }
    ensures same { result ≡ false → bytes_of node.new ≡ bytes_of node.old }
    ensures full { result ≡ false → IsFullFor piece.now (bytes_of node.new) }
{
    match piece.part {
        TwigPart::Pointer(to) => put_body(node, piece, POINTER, &spell_pointer(to)),
        TwigPart::Blocks(unit) => put_body(node, piece, EXTENT, &spell_unit(&unit)),
    }
}

/// Puts the body of a piece behind what the twig has, and answers whether there was room.
fn put_body(node: &mut NodeMut<'_>, piece: &TwigPiece, plugin: u16, body: &[u8]) -> bool
    requires filled { (lo : ℕ) × (mid : ℕ) × (ps : List PieceSeen) × IsFilled lo mid ps (bytes_of node.old) × (mid ≤ rank piece.now.key) }
    requires sound { IsSound piece.now }
    requires spells { Spells piece.now.part plugin body.now }
    ensures block { node.new ≡ with_bytes node.old (bytes_of node.new) }
    ensures id { mkfs_id_of (bytes_of node.new) ≡ mkfs_id_of (bytes_of node.old) }
    ensures puts { result ≡ true → Puts piece.now (bytes_of node.old) (bytes_of node.new) }
    ensures same { result ≡ false → bytes_of node.new ≡ bytes_of node.old }
    ensures full { result ≡ false → IsFullFor piece.now (bytes_of node.new) }
{
    let place = place_for(node, &piece.key, plugin);
    if usize::from(node.room()) < body.len() + usize::from(place.header()) {
        return false;
    }
    put_bytes_at(node, place, &piece.key, plugin, body);
    true
}

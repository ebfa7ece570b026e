//! The pieces of a twig's items (docs/volume.md, "Twigs").

ghost use Rattle.std.specs.Prelude.{◌≡◌, ℕ, ◌+◌, ◌*◌, ◌^◌, ◌<◌, ◌≤◌, ◌++◌, OnOk, IfOk};
ghost use Rattle.r4_base.specs.Cell.{names_in, units_in};
ghost use Rattle.r4_base.specs.Extents.{units_of as units_of_body};
ghost use Rattle.r4_base.specs.Key.{IsKey, offset_of, rank, later};
ghost use Rattle.r4_node40.specs.View.{view_block, view_items};
ghost use Rattle.r4_branch.specs.Pieces.{AreTwigPieces, MayStand, item_pieces, names_of, pieces_in, twig_bytes, unit_pieces, units_of};
ghost use Rattle.r4_branch.specs.Items.{IsSoundItem};

use crate::piece::{TwigPart, TwigPiece};
use r4_base::{BLOCK_BYTES, Key, Memory, NodeId, POINTER, get64};
use r4_node40::NodeView;
use r4_twig::ExtentView;
use std::alloc::Global;

/// The pieces of a twig that may stand, in their order: its pointers and the units of its extents. They name what the twig
/// names and have its units, and need at most the room that a twig has (docs/volume.md, "Twigs").
pub fn pieces_of(alloc: Global, twig: &NodeView<'_>) -> Result<Vec<TwigPiece>, Memory>
    requires { (lo : ℕ) × (hi : ℕ) × MayStand lo hi (view_block twig.now).now }
    ensures items { IfOk result (λ v. v.items ≡ pieces_in (view_items twig.now)) }
    ensures pieces { IfOk result (λ v. (lo hi : ℕ) → MayStand lo hi (view_block twig.now).now → AreTwigPieces lo hi v.items) }
    ensures names { IfOk result (λ v. (hi : ℕ) → names_of hi v.items ≡ names_in 2 hi (view_items twig.now)) }
    ensures units { IfOk result (λ v. units_of v.items ≡ units_in (view_items twig.now)) }
    ensures fits { IfOk result (λ v. twig_bytes v.items ≤ 4068) }
{
    let mut pieces = Vec::new(alloc);
    for i in 0..twig.len() {
        let item = twig.item(i);
        add_item(&mut pieces, item.key, item.plugin, item.body)?;
    }
    Ok(pieces)
}

/// The pieces of an extent's units, in their order, the first at the key. The body is one that an extent may have in memory
/// (docs/volume.md, "Twigs").
pub fn extent_pieces(alloc: Global, key: &Key, body: &[u8]) -> Result<Vec<TwigPiece>, Memory>
    requires { IsSoundItem (record { key = key.now; plugin = 5; body = body.now }) }
    ensures { IfOk result (λ v. v.items ≡ item_pieces (record { key = key.now; plugin = 5; body = body.now })) }
{
    let mut pieces = Vec::new(alloc);
    add_extent(&mut pieces, key, body)?;
    Ok(pieces)
}

/// Puts the pieces of an item behind the others.
fn add_item(pieces: &mut Vec<TwigPiece>, key: Key, plugin: u16, body: &[u8]) -> Result<(), Memory>
    requires { IsSoundItem (record { key = key; plugin = plugin; body = body.now }) }
    ensures { OnOk result (pieces.new.items ≡ pieces.old.items ++ item_pieces (record { key = key; plugin = plugin; body = body.now })) }
{
    if plugin == POINTER {
        let to = NodeId(get64(body, 0));
        pieces.push(TwigPiece {
            key,
            part: TwigPart::Pointer(to),
        })?;
        return Ok(());
    }
    add_extent(pieces, &key, body)
}

/// Puts the units of an extent behind the other pieces.
fn add_extent(pieces: &mut Vec<TwigPiece>, key: &Key, body: &[u8]) -> Result<(), Memory>
    requires { IsSoundItem (record { key = key.now; plugin = 5; body = body.now }) }
    ensures { OnOk result (pieces.new.items ≡ pieces.old.items ++ unit_pieces key.now 0 (units_of_body body.now)) }
{
    let extent = ExtentView::of_item(body);
    let mut blocks = 0;
    for i in 0..extent.len() {
        let unit = extent.unit(i);
        pieces.push(TwigPiece {
            key: behind(key, blocks),
            part: TwigPart::Blocks(unit),
        })?;
        blocks += unit.width;
    }
    Ok(())
}

/// The key so many blocks behind another.
#[tactic(auto, unfolding(r4_base::specs::Key::rank))]
pub(crate) fn behind(key: &Key, blocks: u64) -> Key
    requires { offset_of key.now + 4096 * blocks < 2 ^ 64 }
    ensures later { result ≡ later key.now (4096 * blocks) }
    ensures key { IsKey result }
    ensures rank { rank result ≡ rank key.now + 4096 * blocks }
    ensures offset { offset_of result ≡ offset_of key.now + 4096 * blocks }
{
    key.behind(BLOCK_BYTES * blocks)
}

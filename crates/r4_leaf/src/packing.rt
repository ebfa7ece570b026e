//! Leaves that are filled one after the other (docs/volume.md, "Leaves").

ghost use Rattle.std.specs.Prelude.{◌≡◌, ℕ, ◌+◌, ◌<◌, [], reverse, OnOk, IfOk};
ghost use Rattle.r4_base.specs.Key.{rank};
ghost use Rattle.r4_base.specs.Node.{mkfs_id_of};
ghost use Rattle.r4_node40.specs.Loan.{bytes_of, with_bytes};
ghost use Rattle.r4_leaf.specs.Filling.{IsFilled};
ghost use Rattle.r4_leaf.specs.Leaves.{HaveMkfsId, Packs};
ghost use Rattle.r4_leaf.specs.Packing.{FillsUp};
ghost use Rattle.r4_leaf.specs.Pieces.{Follow, units_of};

use crate::filling::put;
use crate::leaf::Leaf;
use crate::piece::Piece;
use r4_base::{Block, Key, LEAF, Memory};
use r4_node40::NodeMut;
use std::alloc::Global;

/// Leaves of pieces, of which the last one comes first, for a range that begins at `lo`. A leaf is filled before the next one
/// is begun. All have the given mkfs_id.
pub(crate) fn pack(
    alloc: Global,
    lo: Key,
    mkfs_id: u32,
    mut pieces: Vec<Piece<'_>>,
) -> Result<Vec<Leaf>, Memory>
    requires { (hi : ℕ) × Follow (rank lo) hi (reverse pieces.items) }
    ensures packs { IfOk result (λ v. (hi : ℕ) → Follow (rank lo) hi (reverse pieces.entry.items) → Packs (rank lo) hi (units_of (reverse pieces.entry.items)) v.items) }
    ensures mkfs_id { IfOk result (λ v. HaveMkfsId mkfs_id v.items) }
{
    let mut leaves = Vec::new(alloc);
    let mut from = lo;
    loop {
        let mut block = Block::zeroed(alloc)?;
        fill_block(&mut block, mkfs_id, &mut pieces)?;
        leaves.push(Leaf { lo: from, block })?;
        match pieces.last() {
            None => return Ok(leaves),
            Some(next) => from = next.key(),
        }
    }
}

/// Makes the block a leaf of the first pieces, as many as there is room for, and leaves the others.
fn fill_block(block: &mut Block, mkfs_id: u32, pieces: &mut Vec<Piece<'_>>) -> Result<(), Memory>
    requires { (lo : ℕ) × (hi : ℕ) × Follow lo hi (reverse pieces.old.items) }
    ensures fills { OnOk result ((lo hi : ℕ) → Follow lo hi (reverse pieces.old.items) → FillsUp lo hi pieces.old.items pieces.new.items block.new) }
    ensures mkfs_id { OnOk result (mkfs_id_of block.new ≡ mkfs_id) }
{
    let mut node = NodeMut::format(block, LEAF, mkfs_id);
    fill(&mut node, pieces)
}

/// Puts the first pieces into an empty leaf, as many as there is room for, and leaves the others.
fn fill(node: &mut NodeMut<'_>, pieces: &mut Vec<Piece<'_>>) -> Result<(), Memory>
    requires empty { (lo : ℕ) → IsFilled lo lo [] (bytes_of node.old) }
    requires follow { (lo : ℕ) × (hi : ℕ) × Follow lo hi (reverse pieces.old.items) }
    ensures block { node.new ≡ with_bytes node.old (bytes_of node.new) }
    ensures fills { OnOk result ((lo hi : ℕ) → Follow lo hi (reverse pieces.old.items) → FillsUp lo hi pieces.old.items pieces.new.items (bytes_of node.new)) }
    ensures mkfs_id { OnOk result (mkfs_id_of (bytes_of node.new) ≡ mkfs_id_of (bytes_of node.old)) }
{
    while let Some(piece) = pieces.pop() {
        if let Some(left) = put(node, piece) {
            pieces.push(left)?;
            return Ok(());
        }
    }
    Ok(())
}

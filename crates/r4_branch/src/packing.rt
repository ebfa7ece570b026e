//! Twigs that are filled one after the other (docs/volume.md, "Twigs").

ghost use Rattle.std.specs.Prelude.{◌≡◌, ℕ, ◌≤◌, [], Contains, IfOk, length};
ghost use Rattle.r4_base.specs.Key.{rank};
ghost use Rattle.r4_base.specs.Node.{mkfs_id_of};
ghost use Rattle.r4_node40.specs.Loan.{bytes_of, with_bytes};
ghost use Rattle.r4_branch.specs.Filling.{IsFilled};
ghost use Rattle.r4_branch.specs.Packing.{FillsUp};
ghost use Rattle.r4_branch.specs.Pieces.{AreTwigPieces, Follow};
ghost use Rattle.r4_branch.specs.Twigs.{AreFewTwigs, PacksTwigs};
ghost use Rattle.r4_branch.specs.declared.twig.Twig.{Twig as TwigSeen};

use crate::filling::put;
use crate::piece::TwigPiece;
use crate::twig::Twig;
use r4_base::{Block, Key, Memory, TWIG};
use r4_node40::NodeMut;
use std::alloc::Global;

/// Twigs of pieces, for a range that begins at `lo`, the first piece's key. A unit that continues the one before it stands in
/// its item. A twig is filled before the next one is begun (docs/volume.md, "Twigs").
pub fn pack_twigs(
    alloc: Global,
    lo: Key,
    mkfs_id: u32,
    pieces: &[TwigPiece],
) -> Result<Vec<Twig>, Memory>
    requires { (hi : ℕ) × AreTwigPieces (rank lo) hi pieces.now }
    ensures packs { IfOk result (λ v. (hi : ℕ) → AreTwigPieces (rank lo) hi pieces.now
        → PacksTwigs (rank lo) hi pieces.now v.items) }
    ensures few { IfOk result (λ v. AreFewTwigs pieces.now v.items) }
    ensures id { IfOk result (λ v. (x : TwigSeen) → Contains v.items x → mkfs_id_of x.block ≡ mkfs_id) }
{
    let mut twigs = Vec::new(alloc);
    let mut from = lo;
    let mut rest = pieces;
    loop {
        let mut block = Block::zeroed(alloc)?;
        let count = fill_block(&mut block, mkfs_id, rest);
        twigs.push(Twig { lo: from, block })?;
        let (_, behind) = rest.split_at(count);
        rest = behind;
        match rest.first() {
            None => return Ok(twigs),
            Some(next) => from = next.key,
        }
    }
}

/// Makes the block a twig of the first pieces, as many as there is room for, and answers how many.
fn fill_block(block: &mut Block, mkfs_id: u32, pieces: &[TwigPiece]) -> usize
    requires { (lo : ℕ) × (hi : ℕ) × Follow lo hi pieces.now }
    ensures within { result ≤ length pieces.now }
    ensures fills { (lo hi : ℕ) → Follow lo hi pieces.now → FillsUp lo hi pieces.now result block.new }
    ensures id { mkfs_id_of block.new ≡ mkfs_id }
{
    let mut node = NodeMut::format(block, TWIG, mkfs_id);
    fill(&mut node, pieces)
}

/// Puts the first pieces into an empty twig, as many as there is room for, and answers how many.
fn fill(node: &mut NodeMut<'_>, pieces: &[TwigPiece]) -> usize
    requires empty { (lo : ℕ) → IsFilled lo lo [] (bytes_of node.old) }
    requires follow { (lo : ℕ) × (hi : ℕ) × Follow lo hi pieces.now }
    ensures block { node.new ≡ with_bytes node.old (bytes_of node.new) }
    ensures id { mkfs_id_of (bytes_of node.new) ≡ mkfs_id_of (bytes_of node.old) }
    ensures within { result ≤ length pieces.now }
    ensures fills { (lo hi : ℕ) → Follow lo hi pieces.now → FillsUp lo hi pieces.now result (bytes_of node.new) }
{
    for (i, piece) in pieces.iter().enumerate() {
        if !put(node, piece) {
            return i;
        }
    }
    pieces.len()
}

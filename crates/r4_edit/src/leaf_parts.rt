//! The parts of a leaf where an extent comes into its range, and leaves that are made for a range (docs/volume.md, "Edits").

ghost use Rattle.std.specs.Prelude.{◌≡◌, ◌+◌, ◌<◌, ◌≤◌, [], ◌∷◌, None, Some, IfOk, length, map};
ghost use Rattle.std.specs.Arc.{arc_value};
ghost use Rattle.std.specs.Option.{option_map};
ghost use Rattle.r4_base.specs.Cell.{item_end};
ghost use Rattle.r4_base.specs.Key.{rank};
ghost use Rattle.r4_base.specs.Node.{items_of, mkfs_id_of, node_fault};
ghost use Rattle.r4_path.specs.r4_cell.Seen.{node_of};
ghost use Rattle.r4_path.specs.r4_leaf.Leaves.{IsGiven};
ghost use Rattle.r4_edit.specs.Editing.{given_item};
ghost use Rattle.r4_edit.specs.LeafParts.{HasLeft, HasRight, HasUnits, IsEmptyLeaf, IsLeafOf, IsWidened, PartsLeaf};
ghost use Rattle.r4_edit.specs.LeafParts.{first_item_key, right_id, right_takes, units_below, units_from};
ghost use Rattle.r4_path.specs.Nodes.{IsNodeOf};
ghost use Rattle.r4_path.specs.Steps.{OnlyTakes};

use r4_base::{Block, Key, LEAF, Memory, NodeId, get32};
use r4_path::{Cell, Fresh, Leaf, NodeMut, NodeView, append, cut_out, new_cell, take_number};
use std::alloc::Global;
use std::sync::Arc;

/// The parts of a leaf at a key: what is before it, and what is from its first unit there on.
#[derive(Drop)]
pub struct LeafParts {
    pub left: Option<Arc<Cell>>,
    pub right: Option<Arc<Cell>>,
}

/// Parts a leaf at a key of its range. There is a left part unless the key is the leaf's first, and a right one where a unit
/// has the key or one behind it; the first of them has the leaf's name, and a right one beside a left one takes a fresh
/// number. On `Memory` it may have been taken.
pub(crate) fn part_leaf(
    alloc: Global,
    leaf: &Arc<Cell>,
    key: &Key,
    fresh: &mut Fresh,
) -> Result<LeafParts, Memory>
    requires level { (arc_value leaf.now).level ≡ 1 }
    requires from { rank (arc_value leaf.now).lo ≤ rank key.now }
    requires to { rank key.now < rank (arc_value leaf.now).hi }
    requires number { fresh.old.next < fresh.old.end }
    ensures parts { IfOk result (λ p. PartsLeaf (arc_value leaf.now) key.now fresh.old fresh.new
        (option_map (λ c. arc_value c) p.left) (option_map (λ c. arc_value c) p.right)) }
    ensures numbers { OnlyTakes fresh.old fresh.new }
{
    let left = left_part(alloc, leaf, key)?;
    let right = right_part(alloc, leaf, key, fresh)?;
    Ok(LeafParts { left, right })
}

/// The part of a leaf before a key of its range, unless that is its first. It has the leaf's name
/// (docs/volume.md, "Edits").
pub fn left_part(alloc: Global, leaf: &Cell, key: &Key) -> Result<Option<Arc<Cell>>, Memory>
    requires level { leaf.now.level ≡ 1 }
    requires from { rank leaf.now.lo ≤ rank key.now }
    requires to { rank key.now < rank leaf.now.hi }
    ensures { IfOk result (λ o. HasLeft leaf.now key.now (option_map (λ c. arc_value c) o)) }
{
    if key.is_same(leaf.lo()) {
        return Ok(None);
    }
    let block = block_below(alloc, leaf, key)?;
    let cell = new_cell(alloc, leaf.id(), LEAF, leaf.lo(), *key, block)?;
    Ok(Some(cell))
}

/// The part of a leaf from its first unit at or behind a key of its range on, where there is one.
/// It has the leaf's name where the key is the leaf's first, and else takes a fresh number
/// (docs/volume.md, "Edits").
pub fn right_part(
    alloc: Global,
    leaf: &Cell,
    key: &Key,
    fresh: &mut Fresh,
) -> Result<Option<Arc<Cell>>, Memory>
    requires level { leaf.now.level ≡ 1 }
    requires from { rank leaf.now.lo ≤ rank key.now }
    requires to { rank key.now < rank leaf.now.hi }
    requires number { fresh.old.next < fresh.old.end }
    ensures right { IfOk result (λ o. HasRight leaf.now key.now (right_id leaf.now key.now fresh.old) (option_map (λ c. arc_value c) o)) }
    ensures fresh { IfOk result (λ o. fresh.new ≡ record fresh.old {
      next = fresh.old.next + right_takes leaf.now key.now (option_map (λ c. arc_value c) o);
    }) }
    ensures numbers { OnlyTakes fresh.old fresh.new }
{
    let block = block_from(alloc, leaf, key)?;
    let Some(lo) = first_key(&block) else {
        return Ok(None);
    };
    let id = number_of_right(leaf, key, fresh);
    let cell = new_cell(alloc, id, LEAF, lo, leaf.hi(), block)?;
    Ok(Some(cell))
}

/// The number of the right part of a leaf: the leaf's name where there is no left one.
fn number_of_right(leaf: &Cell, key: &Key, fresh: &mut Fresh) -> NodeId
    requires number { fresh.old.next < fresh.old.end }
    ensures number { result.0 ≡ right_id leaf.now key.now fresh.old }
    ensures fresh { fresh.new ≡ record fresh.old { next = fresh.old.next + right_takes leaf.now key.now (Some leaf.now) } }
{
    if key.is_same(leaf.lo()) {
        return leaf.id();
    }
    take_number(fresh)
}

/// The block of a leaf with its units below a key of its range alone.
fn block_below(alloc: Global, leaf: &Cell, key: &Key) -> Result<Block, Memory>
    requires level { leaf.now.level ≡ 1 }
    requires from { rank leaf.now.lo ≤ rank key.now }
    requires to { rank key.now < rank leaf.now.hi }
    ensures { IfOk result (λ b. HasUnits leaf.now (units_below (rank key.now) (node_of leaf.now).units) b) }
{
    let mkfs_id = get32(leaf.block().bytes(), 12);
    let leaves = cut_out(alloc, &leaf.node(), leaf.lo(), mkfs_id, key, &leaf.hi())?;
    Ok(only(leaves))
}

/// The block of a leaf with its units from a key of its range on alone.
fn block_from(alloc: Global, leaf: &Cell, key: &Key) -> Result<Block, Memory>
    requires level { leaf.now.level ≡ 1 }
    requires from { rank leaf.now.lo ≤ rank key.now }
    requires to { rank key.now < rank leaf.now.hi }
    ensures { IfOk result (λ b. HasUnits leaf.now (units_from (rank key.now) (node_of leaf.now).units) b) }
{
    let mkfs_id = get32(leaf.block().bytes(), 12);
    let leaves = cut_out(alloc, &leaf.node(), leaf.lo(), mkfs_id, &leaf.lo(), key)?;
    Ok(only(leaves))
}

/// The block of the one leaf.
fn only(mut leaves: Vec<Leaf>) -> Block
    requires { length leaves.items ≡ 1 }
    ensures { map (λ x. x.block) leaves.items ≡ result ∷ [] }
{
    leaves.remove(0).block
}

/// A leaf with this item alone, from the item's key up to `hi`: stat data, entries of a directory or bytes of a tail.
pub(crate) fn leaf_of(
    alloc: Global,
    id: NodeId,
    hi: Key,
    mkfs_id: u32,
    key: &Key,
    plugin: u16,
    body: &[u8],
) -> Result<Arc<Cell>, Memory>
    requires given { IsGiven (given_item key.now plugin body.now) }
    requires to { item_end (given_item key.now plugin body.now) ≤ rank hi }
    ensures { IfOk result (λ c. IsLeafOf (given_item key.now plugin body.now) id.0 hi mkfs_id (arc_value c)) }
{
    let mut block = Block::zeroed(alloc)?;
    let lo = *key;
    fill_leaf(&mut block, mkfs_id, lo, plugin, body);
    new_cell(alloc, id, LEAF, lo, hi, block)
}

/// Makes the block a leaf with this item alone.
fn fill_leaf(block: &mut Block, mkfs_id: u32, key: Key, plugin: u16, body: &[u8])
    requires given { IsGiven (given_item key plugin body.now) }
    ensures node { IsNodeOf 1 (given_item key plugin body.now ∷ []) block.new }
    ensures mkfs_id { mkfs_id_of block.new ≡ mkfs_id }
{
    let mut node = NodeMut::format(block, LEAF, mkfs_id);
    append(&mut node, 0, key, plugin, body);
}

/// A leaf up to a greater key.
pub(crate) fn widened(alloc: Global, leaf: &Cell, hi: Key) -> Result<Arc<Cell>, Memory>
    requires level { leaf.now.level ≡ 1 }
    requires to { rank leaf.now.hi ≤ rank hi }
    ensures { IfOk result (λ c. IsWidened leaf.now hi (arc_value c)) }
{
    let level = leaf.node().level();
    let block = leaf.block().copy(alloc)?;
    new_cell(alloc, leaf.id(), level, leaf.lo(), hi, block)
}

/// A leaf without units, for a range that has a key.
pub(crate) fn empty_leaf(
    alloc: Global,
    id: NodeId,
    lo: Key,
    hi: Key,
    mkfs_id: u32,
) -> Result<Arc<Cell>, Memory>
    ensures { IfOk result (λ c. IsEmptyLeaf id.0 lo hi mkfs_id (arc_value c)) }
{
    let mut block = Block::zeroed(alloc)?;
    format_leaf(&mut block, mkfs_id);
    new_cell(alloc, id, LEAF, lo, hi, block)
}

/// Makes the block a leaf without items.
fn format_leaf(block: &mut Block, mkfs_id: u32)
    ensures node { IsNodeOf 1 [] block.new }
    ensures mkfs_id { mkfs_id_of block.new ≡ mkfs_id }
{
    let _ = NodeMut::format(block, LEAF, mkfs_id);
}

/// The key of a node's first item.
fn first_key(block: &Block) -> Option<Key>
    requires { node_fault block.now ≡ None }
    ensures { result ≡ first_item_key (items_of block.now) }
{
    let node = NodeView::of_node(block.bytes());
    if node.len() == 0 {
        return None;
    }
    Some(node.item(0).key)
}

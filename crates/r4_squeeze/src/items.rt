//! Items of which a node above leaf level is filled (docs/volume.md, "Squeezing").

ghost use Rattle.std.specs.Prelude.{◌≡◌, ◌+◌, ◌≤◌, ◌++◌, ℕ, drop, length, map, slice_get, take};
ghost use Rattle.std.specs.Prelude.{IfOk, OnOk, Some};
ghost use Rattle.r4_base.specs.Bytes.{number_bytes};
ghost use Rattle.r4_base.specs.Node.{Item, KeysRise, PluginsFit, mkfs_id_of};
ghost use Rattle.r4_node40.specs.Loan.{bytes_of, with_bytes};
ghost use Rattle.r4_node40.specs.View.{view_items};
ghost use Rattle.std.specs.Arc.{arc_value};
ghost use Rattle.r4_path.specs.Nodes.{IsAppended, IsNodeOf, pointer_item, weight};
ghost use Rattle.r4_squeeze.specs.Items.{CanAppend, HaveBodies, item_meant, items_meant};

use r4_base::{Block, BlockNo, Key, Memory, NodeId, POINTER};
use r4_cell::Cell;
use r4_node40::{ItemView, NodeMut, NodeView};
use r4_path::append;
use r4_twig::put_pointer;
use std::alloc::Global;
use std::sync::Arc;

/// An item of a node that is filled: one that another node has, or a pointer to a cell.
#[derive(Drop)]
pub enum NodeItem<'a> {
    Stays(ItemView<'a>),
    Comes(&'a Arc<Cell>),
}

impl<'a> NodeItem<'a> {
    /// Its key.
    pub fn key(&self) -> Key
        ensures { result ≡ (item_meant self.now).key }
    {
        match self {
            NodeItem::Stays(item) => item.key,
            NodeItem::Comes(cell) => cell.lo(),
        }
    }
}

/// Puts so many items of a node, from one place on, behind the others.
pub fn add_items<'a>(
    items: &mut Vec<NodeItem<'a>>,
    node: &NodeView<'a>,
    from: u16,
    count: u16,
) -> Result<(), Memory>
    requires { from + count ≤ length (view_items node.now) }
    ensures { OnOk result (items_meant items.new.items
        ≡ items_meant items.old.items ++ take count (drop from (view_items node.now))) }
{
    // so the places are numbers of 16 bits
    let _all = node.len();
    for i in 0..count {
        items.push(NodeItem::Stays(node.item(from + i)))?;
    }
    Ok(())
}

/// Puts pointers to cells behind the others.
pub fn add_pointers<'a>(items: &mut Vec<NodeItem<'a>>, cells: &'a [Arc<Cell>]) -> Result<(), Memory>
    ensures { OnOk result (items_meant items.new.items ≡ items_meant items.old.items
        ++ map (λ c. pointer_item (arc_value c)) cells.now) }
{
    for cell in cells {
        items.push(NodeItem::Comes(cell))?;
    }
    Ok(())
}

/// A node of these items, which fit into it.
pub fn node_of(
    alloc: Global,
    level: u8,
    mkfs_id: u32,
    items: &[NodeItem<'_>],
) -> Result<Block, Memory>
    requires level { (2 ≤ level) × (level ≤ 8) }
    requires rise { KeysRise (items_meant items.now) }
    requires fit { PluginsFit level (items_meant items.now) }
    requires bodies { HaveBodies (items_meant items.now) }
    requires room { weight (items_meant items.now) ≤ 4068 }
    ensures node { IfOk result (λ b. IsNodeOf level (items_meant items.now) b) }
    ensures mkfs_id { IfOk result (λ b. mkfs_id_of b ≡ mkfs_id) }
{
    let mut block = Block::zeroed(alloc)?;
    fill(&mut block, level, mkfs_id, items);
    Ok(block)
}

// Makes the block such a node.
fn fill(block: &mut Block, level: u8, mkfs_id: u32, items: &[NodeItem<'_>])
    requires level { (2 ≤ level) × (level ≤ 8) }
    requires rise { KeysRise (items_meant items.now) }
    requires fit { PluginsFit level (items_meant items.now) }
    requires bodies { HaveBodies (items_meant items.now) }
    requires room { weight (items_meant items.now) ≤ 4068 }
    ensures node { IsNodeOf level (items_meant items.now) block.new }
    ensures mkfs_id { mkfs_id_of block.new ≡ mkfs_id }
{
    let mut node = NodeMut::format(block, level, mkfs_id);
    for (i, item) in items.iter().enumerate() {
        put(&mut node, i as u16, item);
    }
}

// Puts an item behind those that the node has, which are so many.
fn put(node: &mut NodeMut<'_>, count: u16, item: &NodeItem<'_>)
    requires can { CanAppend (bytes_of node.old) count (item_meant item.now) }
    ensures block { node.new ≡ with_bytes node.old (bytes_of node.new) }
    ensures appended { IsAppended (bytes_of node.old) (item_meant item.now) (bytes_of node.new) }
{
    match item {
        NodeItem::Stays(item) => append(node, count, item.key, item.plugin, item.body),
        NodeItem::Comes(cell) => {
            append(node, count, cell.lo(), POINTER, &pointer_body(cell.id()))
        }
    }
}

// The body of a pointer to a node.
fn pointer_body(to: NodeId) -> [u8; 8]
    ensures { result ≡ number_bytes 8 to.0 }
{
    let mut body = [0; 8];
    put_pointer(&mut body, BlockNo(to.0));
    body
}

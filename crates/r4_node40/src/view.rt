//! A node that is read (docs/layout.md, "Nodes").

ghost use Rattle.std.specs.Prelude.{◌≡◌, ◌+◌, ◌-◌, ◌*◌, ◌<◌, ◌≤◌, length, drop, nat_lt, slice_get, Some, None, IfOk, IfErr};
ghost use Rattle.r4_base.specs.Cell.{next_key};
ghost use Rattle.r4_base.specs.Key.{rank};
ghost use Rattle.r4_base.specs.Node.{header_fault, item_fault, items_fault, node_fault, fits_level, count_of, level_of, key_at, offset_at, end_at};
ghost use Rattle.r4_node40.specs.Laid.{IsLaid};

use crate::fields::{edge_of, key_of, offset_of, plugin_of};
use r4_base::{
    ENTRIES, EXTENT, ITEM_HEADER, Key, LEAF, MOST_LEVELS, NODE_HEAD, NodeFault, POINTER, STAT,
    TAIL, TWIG, get16, get32,
};

/// The magic of a node.
pub(crate) const MAGIC: u32 = 0x5234_4653;

/// A node whose block has no fault, read where it stands. It has level 1, a leaf, to 8 (docs/layout.md, "Nodes").
#[derive(Drop)]
pub struct NodeView<'a> {
    block: &'a [u8],
    count: u16,
    ghost laid: { IsLaid block.now },
    ghost counted: { count ≡ count_of block.now },
}

/// An item of a node. The body is lent from the block: 1 to 4030 bytes (docs/layout.md, "Nodes").
#[derive(Drop)]
pub struct ItemView<'a> {
    pub key: Key,
    pub plugin: u16,
    pub body: &'a [u8],
}

impl<'a> NodeView<'a> {
    ghost use Rattle.r4_node40.specs.View.{view_block, view_items, item_shown};

    /// The node that a block of 4096 bytes spells, or its first fault (docs/layout.md, "Nodes"). It looks at each item
    /// header once.
    pub fn read(block: &'a [u8]) -> Result<NodeView<'a>, NodeFault>
        requires { length block.now ≡ 4096 }
        ensures ok { IfOk result (λ v. (node_fault block.now ≡ None) × (view_block v ≡ block.entry)) }
        ensures err { IfErr result (λ e. node_fault block.now ≡ Some e) }
    {
        if let Some(fault) = fault_of_header(block) {
            return Err(fault);
        }
        let count = get16(block, 2);
        if let Some(fault) = fault_of_items(block, count) {
            return Err(fault);
        }
        Ok(NodeView { block, count })
    }

    /// The node that a block spells which is known to have no fault, as one that was read before: nothing is looked at
    /// again.
    pub fn of_node(block: &'a [u8]) -> NodeView<'a>
        requires whole { length block.now ≡ 4096 }
        requires good { node_fault block.now ≡ None }
        ensures { view_block result ≡ block.entry }
    {
        let count = get16(block, 2);
        NodeView { block, count }
    }

    /// The node that a block lays out which is written.
    pub(crate) fn of_laid(block: &'a [u8]) -> NodeView<'a>
        requires { IsLaid block.now }
        ensures { view_block result ≡ block.entry }
    {
        let count = get16(block, 2);
        NodeView { block, count }
    }

    /// How many items the node has: at most 107, and none only in a leaf.
    pub fn len(&self) -> u16
        ensures { result ≡ length (view_items self.now) }
    {
        self.count
    }

    /// The level of the node: 1 for a leaf, and at most 8.
    pub fn level(&self) -> u8
        ensures { result ≡ level_of (view_block self.now).now }
    {
        self.block[26]
    }

    /// Item `i`, counted from 0 and below the number of items.
    pub fn item(&self, i: u16) -> ItemView<'a>
        requires { i < length (view_items self.now) }
        ensures shown { slice_get (view_items self.now) i ≡ Some (item_shown result) }
        ensures place { result.body.ref_ptr ≡ ((view_block self.now).ref_ptr.0, (view_block self.now).ref_ptr.1 + offset_at (view_block self.now).now i) }
    {
        let (from, to) = place_of(self.block, self.count, i);
        ItemView {
            key: key_of(self.block, i),
            plugin: plugin_of(self.block, i),
            body: &self.block[from as usize..to as usize],
        }
    }

    /// The key of the item behind item `i`, which is below the number of items, or `hi` where item `i` is the last one.
    pub fn key_behind(&self, i: u16, hi: Key) -> Key
        requires { i < length (view_items self.now) }
        ensures { rank result ≡ next_key (rank hi) (drop (i + 1) (view_items self.now)) }
    {
        if self.len() - i > 1 {
            return self.item(i + 1).key;
        }
        hi
    }
}

#[tactic(auto, unfolding(r4_base::specs::Node::header_fault))]
fn fault_of_header(b: &[u8]) -> Option<NodeFault>
    requires { length b.now ≡ 4096 }
    ensures { result ≡ header_fault b.now }
{
    if get32(b, 8) != MAGIC || get16(b, 0) != 0 {
        return Some(NodeFault::Magic);
    }
    let level = b[26];
    if level < LEAF || level > MOST_LEVELS {
        return Some(NodeFault::Level);
    }
    let count = get16(b, 2) as u32;
    if level > LEAF && count == 0 {
        return Some(NodeFault::Empty);
    }
    let start = get16(b, 6) as u32;
    if start < NODE_HEAD as u32 || start + get16(b, 4) as u32 + ITEM_HEADER as u32 * count != 4096 {
        return Some(NodeFault::Space);
    }
    None
}

/// The first fault of the items, in order.
fn fault_of_items(b: &[u8], count: u16) -> Option<NodeFault>
    requires whole { length b.now ≡ 4096 }
    requires room { 38 * count ≤ 4096 }
    ensures { result ≡ items_fault count 0 b.now }
{
    for i in 0..count {
        if let Some(fault) = fault_of_item(b, i) {
            return Some(fault);
        }
    }
    None
}

#[tactic(auto, unfolding(r4_base::specs::Node::item_fault))]
fn fault_of_item(b: &[u8], i: u16) -> Option<NodeFault>
    requires whole { length b.now ≡ 4096 }
    requires within { 38 * (i + 1) ≤ 4096 }
    ensures { result ≡ item_fault b.now i }
{
    let offset = offset_of(b, i);
    let is_in_place = if i == 0 {
        offset == NODE_HEAD
    } else {
        offset_of(b, i - 1) < offset
    };
    if !is_in_place || offset >= get16(b, 6) {
        return Some(NodeFault::Offset(i));
    }
    if !fits(b[26], plugin_of(b, i)) {
        return Some(NodeFault::Plugin(i));
    }
    if i > 0 && !rises(b, i) {
        return Some(NodeFault::Order(i));
    }
    None
}

/// Whether a node of this level may have items of this plugin.
fn fits(level: u8, plugin: u16) -> bool
    ensures { result ≡ fits_level level plugin }
{
    match level {
        LEAF => plugin == STAT || plugin == ENTRIES || plugin == TAIL,
        TWIG => plugin == POINTER || plugin == EXTENT,
        _ => plugin == POINTER,
    }
}

/// Whether the key of item `i` is above the one before it.
fn rises(b: &[u8], i: u16) -> bool
    requires whole { length b.now ≡ 4096 }
    requires later { 0 < i }
    requires within { 38 * (i + 1) ≤ 4096 }
    ensures { result ≡ nat_lt (rank (key_at b.now (i - 1))) (rank (key_at b.now i)) }
{
    key_of(b, i - 1).cmp(&key_of(b, i)).is_lt()
}

/// Where the body of item `i` begins and ends.
pub(crate) fn place_of(b: &[u8], count: u16, i: u16) -> (u16, u16)
    requires laid { IsLaid b.now }
    requires counted { count ≡ count_of b.now }
    requires within { i < count }
    ensures from { result.0 ≡ offset_at b.now i }
    ensures to { result.1 ≡ end_at count b.now i }
    ensures order { result.0 < result.1 }
    ensures low { 28 ≤ result.0 }
    ensures inside { result.1 + 38 * count ≤ 4096 }
{
    (offset_of(b, i), edge_of(b, count, i + 1))
}

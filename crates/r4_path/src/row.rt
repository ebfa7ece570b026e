//! The items that a node above leaf level is to have (docs/volume.md, "Edits").

ghost use Rattle.std.specs.Prelude.{◌≡◌, ◌+◌, ◌<◌, ◌≤◌, length, nat_le, slice_get, Some, IfOk, IfSome};
ghost use Rattle.std.specs.Arc.{arc_value};
ghost use Rattle.r4_base.specs.Node.{mkfs_id_of};
ghost use Rattle.r4_leaf.specs.r4_node40.Loan.{bytes_of, with_bytes};
ghost use Rattle.r4_path.specs.Nodes.{IsNodeOf, pointer_item, weight, weight_of};

use crate::appending::append;
use crate::pointing::pointer_body;
use r4_base::{Block, ITEM_HEADER, Key, Memory, NODE_ROOM, POINTER, TWIG};
use r4_leaf::{ItemView, NodeMut, NodeView};
use r4_patch::Cell;
use std::alloc::Global;
use std::sync::Arc;

/// The bytes of a pointer with its header.
const POINTER_ROOM: u32 = 46;

/// An item of a node that is filled: one that another node has, or a pointer to a cell.
#[derive(Drop)]
pub enum RowItem<'a> {
    Stays(ItemView<'a>),
    Comes(&'a Arc<Cell>),
}

/// The items that a node is to have, with its mkfs_id: those that it has, and behind the one at a place pointers to further
/// cells.
#[derive(Drop)]
pub struct Row<'a> {
    pub node: NodeView<'a>,
    pub mkfs_id: u32,
    pub at: u16,
    pub more: &'a [Arc<Cell>],
}

impl<'a> Row<'a> {
    ghost use Rattle.r4_path.specs.Rows.{IsCut, IsNarrow, IsRow, row_item, row_items, row_level, row_part};

    /// How many items there are.
    pub fn len(&self) -> u16
        requires { IsRow self.now }
        ensures { result ≡ length (row_items self.now) }
    {
        self.node.len() + self.more.len() as u16
    }

    /// Item `i`.
    fn item(&self, i: u16) -> RowItem<'_>
        requires row { IsRow self.now }
        requires within { i < length (row_items self.now) }
        ensures { slice_get (row_items self.now) i ≡ Some (row_item result) }
    {
        if i <= self.at {
            return RowItem::Stays(self.node.item(i));
        }
        match self.more.get((i - self.at - 1) as usize) {
            Some(cell) => RowItem::Comes(cell),
            None => RowItem::Stays(self.node.item(i - self.more.len() as u16)),
        }
    }
    /// The key of item `i`.
    pub fn key(&self, i: u16) -> Key
        requires row { IsRow self.now }
        requires within { i < length (row_items self.now) }
        ensures { IfSome (slice_get (row_items self.now) i) (λ it. result ≡ it.key) }
    {
        match self.item(i) {
            RowItem::Stays(item) => item.key,
            RowItem::Comes(cell) => cell.lo(),
        }
    }

    /// Puts item `i` behind those from `from` on.
    fn put(&self, from: u16, i: u16, node: &mut NodeMut<'_>)
        requires row { IsRow self.now }
        requires order { from ≤ i }
        requires within { i < length (row_items self.now) }
        requires room { weight (row_part self.now from (i + 1)) ≤ 4068 }
        requires node { IsNodeOf (row_level self.now) (row_part self.now from i) (bytes_of node.old) }
        ensures block { node.new ≡ with_bytes node.old (bytes_of node.new) }
        ensures node { IsNodeOf (row_level self.now) (row_part self.now from (i + 1)) (bytes_of node.new) }
        ensures mkfs_id { mkfs_id_of (bytes_of node.new) ≡ mkfs_id_of (bytes_of node.old) }
    {
        match self.item(i) {
            RowItem::Stays(item) => append(node, i - from, item.key, item.plugin, item.body),
            RowItem::Comes(cell) => append(
                node,
                i - from,
                cell.lo(),
                POINTER,
                &pointer_body(cell.id()),
            ),
        }
    }

    /// Makes the block a node of the items from `from` up to `to`.
    fn fill(&self, from: u16, to: u16, block: &mut Block)
        requires row { IsRow self.now }
        requires order { from ≤ to }
        requires within { to ≤ length (row_items self.now) }
        requires room { weight (row_part self.now from to) ≤ 4068 }
        ensures node { IsNodeOf (row_level self.now) (row_part self.now from to) block.new }
        ensures mkfs_id { mkfs_id_of block.new ≡ self.now.mkfs_id }
    {
        let mut node = NodeMut::format(block, self.node.level(), self.mkfs_id);
        for i in from..to {
            self.put(from, i, &mut node);
        }
    }

    /// A node of the items from `from` up to `to`.
    pub fn part(&self, alloc: Global, from: u16, to: u16) -> Result<Block, Memory>
        requires row { IsRow self.now }
        requires order { from ≤ to }
        requires within { to ≤ length (row_items self.now) }
        requires room { weight (row_part self.now from to) ≤ 4068 }
        ensures node { IfOk result (λ b. IsNodeOf (row_level self.now) (row_part self.now from to) b) }
        ensures mkfs_id { IfOk result (λ b. mkfs_id_of b ≡ self.now.mkfs_id) }
    {
        let mut block = Block::zeroed(alloc)?;
        self.fill(from, to, &mut block);
        Ok(block)
    }

    /// How many bytes the items from `from` up to `to` take up, with their headers.
    pub fn weight(&self, from: u16, to: u16) -> u32
        requires row { IsRow self.now }
        requires order { from ≤ to }
        requires within { to ≤ length (row_items self.now) }
        ensures { result ≡ weight (row_part self.now from to) }
    {
        let mut bytes = 0;
        for i in from..to {
            bytes += self.weight_of(i);
        }
        bytes
    }

    /// How many bytes item `i` takes up, with its header.
    fn weight_of(&self, i: u16) -> u32
        requires row { IsRow self.now }
        requires within { i < length (row_items self.now) }
        ensures small { result ≤ 4068 }
        ensures weighs { IfSome (slice_get (row_items self.now) i) (λ it. result ≡ weight_of it) }
    {
        match self.item(i) {
            RowItem::Stays(item) => u32::from(ITEM_HEADER) + item.body.len() as u32,
            RowItem::Comes(_) => POINTER_ROOM,
        }
    }

    /// Where the items are parted into two nodes: in the middle, or beside the pointers that come where it is too far from
    /// there.
    pub fn cut(&self) -> u16
        requires row { IsRow self.now }
        requires narrow { IsNarrow self.now }
        requires two { 2 ≤ length (row_items self.now) }
        ensures { IsCut self.now result }
    {
        if self.node.level() > TWIG {
            return self.len() / 2;
        }
        let middle = self.middle();
        if self.fits(0, middle) && self.fits(middle, self.len()) {
            return middle;
        }
        self.beside()
    }

    /// The first place at or past half of the bytes, but for the first and the last one.
    fn middle(&self) -> u16
        requires row { IsRow self.now }
        requires two { 2 ≤ length (row_items self.now) }
        ensures some { 1 ≤ result }
        ensures below { result < length (row_items self.now) }
    {
        let last = self.len() - 1;
        let whole = self.weight(0, self.len());
        let mut bytes = 0;
        for i in 0..last {
            bytes += self.weight_of(i);
            if bytes >= whole / 2 {
                return i + 1;
            }
        }
        last
    }

    /// Whether the items from `from` up to `to` fit into a node.
    fn fits(&self, from: u16, to: u16) -> bool
        requires row { IsRow self.now }
        requires order { from ≤ to }
        requires within { to ≤ length (row_items self.now) }
        ensures { result ≡ nat_le (weight (row_part self.now from to)) 4068 }
    {
        self.weight(from, to) <= u32::from(NODE_ROOM)
    }

    /// The place before the pointers that come, where what then follows fits into a node, or else the one behind them.
    fn beside(&self) -> u16
        requires row { IsRow self.now }
        requires narrow { IsNarrow self.now }
        requires over { 4068 < weight (row_items self.now) }
        requires low { row_level self.now ≤ 2 }
        ensures { IsCut self.now result }
    {
        let before = self.at + 1;
        if self.fits(before, self.len()) {
            return before;
        }
        before + self.more.len() as u16
    }
}

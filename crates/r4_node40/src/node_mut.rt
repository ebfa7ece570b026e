//! A node that is written (docs/layout.md, "Nodes").

ghost use Rattle.std.specs.Prelude.{◌≡◌, ◌↔◌, ◌<◌, ◌≤◌, ◌+◌, [], IsOk, IfOk, IfErr, OnOk, OnErr};
ghost use Rattle.std.specs.Borrow.{sem, Lends, follows_if, Array, u8 as byte};
ghost use Rattle.r4_base.specs.Lending.{written};
ghost use Rattle.r4_base.specs.contracts.block.Block.{the_row as block_row};
ghost use Rattle.r4_base.specs.Node.{node_fault, offset_at, end_at, count_of};
ghost use Rattle.r4_node40.specs.contracts.node_mut.NodeMut.{the_row};
ghost use Rattle.r4_node40.specs.Laid.{IsLaid, IsFresh, fresh_node, room_of, span_at};
ghost use Rattle.r4_node40.specs.Edits.{InsertsItem, RemovesItem, ResizesItem, growth};
ghost use mir.Syntax.{named};

use crate::edit::{Full, format_block, insert_item, remove_item, resize_item, room_in};
use crate::view::{NodeView, place_of};
use r4_base::{Block, Key, NodeFault, get16};

/// A node that is written where it stands. Above leaf level it may also have no items, which `NodeView::read` refuses
/// as `Empty` (docs/layout.md, "Nodes").
#[derive(Drop)]
pub struct NodeMut<'a> {
    block: &'a mut Block,
}

impl<'a> NodeMut<'a> {
    ghost use Rattle.r4_node40.specs.Loan.{loan, lent_as, bytes_of, with_bytes, loan_name};
    ghost use Rattle.r4_node40.specs.View.{view_block};

    /// The node that the block spells, or its first fault (docs/layout.md, "Nodes").
    pub fn read(block: &'a mut Block) -> Result<NodeMut<'a>, NodeFault>
        ensures ok { IfOk result (λ n. (node_fault block.old ≡ None) × IsLaid block.old × (loan n ≡ block.entry)) }
        ensures err { IfErr result (λ e. node_fault block.old ≡ Some e) }
        ensures* lends { sem 𝓛 (follows_if block_row block_row block.entry.ghost_name (loan_name result) (λ w. w) block.old) }
    {
        if let Err(fault) = NodeView::read(block.bytes()) {
            return Err(fault);
        }
        Ok(NodeMut { block })
    }

    /// Makes the block a node of a level from 1, a leaf, to 8, without items (docs/layout.md, "Nodes").
    pub fn format(block: &'a mut Block, level: u8, mkfs_id: u32) -> NodeMut<'a>
        requires { (1 ≤ level) × (level ≤ 8) }
        ensures block { loan result ≡ lent_as block.entry (fresh_node level mkfs_id) }
        ensures fresh { IsFresh (bytes_of result) level mkfs_id }
    {
        let bytes = block.bytes_mut();
        format_block(bytes, level, mkfs_id);
        NodeMut { block }
    }

    /// The node as it stands, to be read.
    pub fn view(&self) -> NodeView<'_>
        requires { IsLaid (bytes_of self.now) }
        ensures { (view_block result).now ≡ bytes_of self.now }
    {
        NodeView::of_laid(self.block.bytes())
    }

    /// How many bytes there are room for, of headers and bodies: 4068 in a node without items.
    pub fn room(&self) -> u16
        ensures { result ≡ room_of (bytes_of self.now) }
    {
        room_in(self.block.bytes())
    }

    /// Puts an item in as item `i`, counted from 0 and at most the number of items, before the one that stood there. Its
    /// body has `len` bytes, from 1 to 4096, all zero. It needs `len + 38` bytes of the room for headers and bodies, which
    /// is 4068 in a node without items: where there are fewer, the node stays as it is (docs/layout.md, "Nodes").
    pub fn insert(&mut self, i: u16, key: Key, plugin: u16, len: u16) -> Result<(), Full>
        requires laid { IsLaid (bytes_of self.old) }
        requires within { i ≤ count_of (bytes_of self.old) }
        requires some { 1 ≤ len }
        requires short { len ≤ 4096 }
        ensures block { self.new ≡ with_bytes self.old (bytes_of self.new) }
        ensures fits { IsOk result ↔ (len + 38 ≤ room_of (bytes_of self.old)) }
        ensures full { IfErr result (λ e. e ≡ record { need = len + 38; free = room_of (bytes_of self.old) }) }
        ensures ok { OnOk result (InsertsItem (bytes_of self.old) i key plugin len (bytes_of self.new)) }
        ensures err { OnErr result (self.new ≡ self.old) }
    {
        let bytes = self.block.bytes_mut();
        insert_item(bytes, i, &key, plugin, len)
    }

    /// Gives item `i`, counted from 0 and below the number of items, a body of `len` bytes, from 1 to 4096: the old ones
    /// as far as they go, and then zeros. It needs as many bytes of the room for headers and bodies as the body grows by:
    /// where there are fewer, the node stays as it is.
    pub fn resize(&mut self, i: u16, len: u16) -> Result<(), Full>
        requires laid { IsLaid (bytes_of self.old) }
        requires within { i < count_of (bytes_of self.old) }
        requires some { 1 ≤ len }
        requires short { len ≤ 4096 }
        ensures block { self.new ≡ with_bytes self.old (bytes_of self.new) }
        ensures fits { IsOk result ↔ (growth (bytes_of self.old) i len ≤ room_of (bytes_of self.old)) }
        ensures full { IfErr result (λ e. e ≡ record { need = growth (bytes_of self.old) i len; free = room_of (bytes_of self.old) }) }
        ensures ok { OnOk result (ResizesItem (bytes_of self.old) i len (bytes_of self.new)) }
        ensures err { OnErr result (self.new ≡ self.old) }
    {
        let bytes = self.block.bytes_mut();
        resize_item(bytes, i, len)
    }

    /// Takes item `i` away, counted from 0 and below the number of items. The room for headers and bodies grows by 38 and
    /// the bytes of its body.
    pub fn remove(&mut self, i: u16)
        requires laid { IsLaid (bytes_of self.old) }
        requires within { i < count_of (bytes_of self.old) }
        ensures block { self.new ≡ with_bytes self.old (bytes_of self.new) }
        ensures removes { RemovesItem (bytes_of self.old) i (bytes_of self.new) }
    {
        let bytes = self.block.bytes_mut();
        remove_item(bytes, i);
    }

    /// The body of item `i`, counted from 0 and below the number of items, to be written. `body_law` says what a write
    /// through it makes of the items.
    pub fn body_mut(&mut self, i: u16) -> &mut [u8]
        requires laid { IsLaid (bytes_of self.old) }
        requires within { i < count_of (bytes_of self.old) }
        ensures* lends { sem 𝓛 (Lends (the_row (record { mir = named 1; lft = [] })) (Array byte 0) self.entry result (λ w. with_bytes self.old (written (bytes_of self.old) (offset_at (bytes_of self.old) i) w))) }
        ensures value { result.now ≡ span_at (bytes_of self.old) i i }
    {
        let bytes = self.block.bytes();
        let (from, to) = place_of(bytes, get16(bytes, 2), i);
        self.block.part_mut(from as usize, to as usize)
    }

    /// The bodies of the items from `i` up to `j` and with it, to be written: from the first byte of body `i` to the last
    /// of body `j`, where `i` is at most `j`, and `j` below the number of items. `span_law` says what a write through it
    /// makes of the items.
    pub fn span_mut(&mut self, i: u16, j: u16) -> &mut [u8]
        requires laid { IsLaid (bytes_of self.old) }
        requires order { i ≤ j }
        requires within { j < count_of (bytes_of self.old) }
        ensures* lends { sem 𝓛 (Lends (the_row (record { mir = named 1; lft = [] })) (Array byte 0) self.entry result (λ w. with_bytes self.old (written (bytes_of self.old) (offset_at (bytes_of self.old) i) w))) }
        ensures value { result.now ≡ span_at (bytes_of self.old) i j }
    {
        let bytes = self.block.bytes();
        let (from, to) = span_of(bytes, i, j);
        self.block.part_mut(from as usize, to as usize)
    }
}

/// Where the body of item `i` begins, and that of item `j` ends.
fn span_of(b: &[u8], i: u16, j: u16) -> (u16, u16)
    requires laid { IsLaid b.now }
    requires order { i ≤ j }
    requires within { j < count_of b.now }
    ensures from { result.0 ≡ offset_at b.now i }
    ensures to { result.1 ≡ end_at (count_of b.now) b.now j }
    ensures order { result.0 < result.1 }
    ensures inside { result.1 ≤ 4096 }
{
    let count = get16(b, 2);
    let (from, _) = place_of(b, count, i);
    let (_, to) = place_of(b, count, j);
    (from, to)
}

//! Edits of a node's block (docs/layout.md, "Nodes").

ghost use Rattle.std.specs.Prelude.{◌≡◌, ◌↔◌, ℕ, ◌+◌, ◌-◌, ◌*◌, ◌^◌, ◌<◌, ◌≤◌, length, replicate, IsOk, IfErr, OnOk, OnErr};
ghost use Rattle.r4_base.specs.Bytes.{fields_bytes, overwrite};
ghost use Rattle.r4_base.specs.Node.{count_of, header, item_flags_at, key_at, offset_at, plugin_at};
ghost use Rattle.r4_node40.specs.Laid.{fresh_node, room_of, IsLaid};
ghost use Rattle.r4_node40.specs.Edits.{RemovesItem, InsertsItem, ResizesItem, header_fields, growth};
ghost use Rattle.r4_node40.specs.Splice.{ShiftsOffsets, Settles};

use crate::fields::{edge_of, header_of, offset_of};
use crate::view::{MAGIC, place_of};
use r4_base::{
    ITEM_HEADER, Key, NODE_HEAD, NODE_ROOM, blank, get16, move_bytes, put16, put32, put64,
};

/// An edit has no room: it needs `need` bytes, and only `free` bytes are free, of 4068 in a node without items. An insert
/// needs its body's bytes and 38 more, a resize the bytes by which the body grows (docs/layout.md, "Nodes").
#[derive(Clone, Copy, Debug, PartialEq, Eq)]
pub struct Full {
    pub need: u16,
    pub free: u16,
}

/// `gone` items from item `at` on, and the `old` bytes of their bodies, which begin at `from`, that give way to `come`
/// items with `new` bytes.
#[derive(Clone, Copy)]
struct Splice {
    at: u16,
    gone: u16,
    come: u16,
    from: u16,
    old: u16,
    new: u16,
}

impl Splice {
    ghost use Rattle.r4_node40.specs.Splice.{CanSplice, IsSpliced};

    /// Moves the bodies and headers behind the place to where they stand once the items have come, and counts items and
    /// free space anew. The place itself is left as it is.
    fn apply(self, b: &mut [u8])
        requires { CanSplice self b.old }
        ensures { IsSpliced self b.old b.new }
    {
        let count = get16(b, 2);
        let free = get16(b, 4);
        let start = get16(b, 6);
        let left = count + self.come - self.gone;
        let behind = (self.from + self.old) as usize;
        move_bytes(b, behind, start as usize, (self.from + self.new) as usize);
        let headers = 4096 - ITEM_HEADER as usize * count as usize;
        let end = 4096 - ITEM_HEADER as usize * (self.at + self.gone) as usize;
        move_bytes(b, headers, end, 4096 - ITEM_HEADER as usize * left as usize);
        shift_offsets(b, self.at + self.come, left, self.old, self.new);
        put16(b, 2, left);
        let room = free + self.old + ITEM_HEADER * self.gone;
        put16(b, 4, room - self.new - ITEM_HEADER * self.come);
        put16(b, 6, start + self.new - self.old);
    }
}

/// Adds `new - old` to the offsets of the items from `first` on.
fn shift_offsets(b: &mut [u8], first: u16, count: u16, old: u16, new: u16)
    requires whole { length b.old ≡ 4096 }
    requires room { 38 * count ≤ 4068 }
    requires enough { (k : ℕ) → first ≤ k → k < count → old ≤ offset_at b.old k }
    requires small { (k : ℕ) → first ≤ k → k < count → offset_at b.old k + new < 2 ^ 16 }
    ensures { ShiftsOffsets first count old new b.old b.new }
{
    for i in first..count {
        let offset = offset_of(b, i);
        put16(b, header_of(i) + 32, offset + new - old);
    }
}

/// Takes item `i` away.
pub(crate) fn remove_item(b: &mut [u8], i: u16)
    requires laid { IsLaid b.old }
    requires within { i < count_of b.old }
    ensures { RemovesItem b.old i b.new }
{
    let count = get16(b, 2);
    let (from, to) = place_of(b, count, i);
    let place = Splice {
        at: i,
        gone: 1,
        come: 0,
        from,
        old: to - from,
        new: 0,
    };
    place.apply(b);
}

/// Puts an item with a body of `len` zeros in as item `i`.
pub(crate) fn insert_item(
    b: &mut [u8],
    i: u16,
    key: &Key,
    plugin: u16,
    len: u16,
) -> Result<(), Full>
    requires laid { IsLaid b.old }
    requires within { i ≤ count_of b.old }
    requires some { 1 ≤ len }
    requires short { len ≤ 4096 }
    ensures fits { IsOk result ↔ (len + 38 ≤ room_of b.old) }
    ensures full { IfErr result (λ e. e ≡ record { need = len + 38; free = room_of b.old }) }
    ensures ok { OnOk result (InsertsItem b.old i key.now plugin len b.new) }
    ensures err { OnErr result (b.new ≡ b.old) }
{
    let need = len + ITEM_HEADER;
    let free = room_in(b);
    if need > free {
        return Err(Full { need, free });
    }
    settle(b);
    let from = edge_of(b, get16(b, 2), i);
    let place = Splice {
        at: i,
        gone: 0,
        come: 1,
        from,
        old: 0,
        new: len,
    };
    place.apply(b);
    put_header(b, i, key, from, plugin);
    zero(b, from, from + len);
    Ok(())
}

/// Gives item `i` a body of `len` bytes: the old ones as far as they go, and then zeros.
pub(crate) fn resize_item(b: &mut [u8], i: u16, len: u16) -> Result<(), Full>
    requires laid { IsLaid b.old }
    requires within { i < count_of b.old }
    requires some { 1 ≤ len }
    requires short { len ≤ 4096 }
    ensures fits { IsOk result ↔ (growth b.old i len ≤ room_of b.old) }
    ensures full { IfErr result (λ e. e ≡ record { need = growth b.old i len; free = room_of b.old }) }
    ensures ok { OnOk result (ResizesItem b.old i len b.new) }
    ensures err { OnErr result (b.new ≡ b.old) }
{
    let (from, to) = place_of(b, get16(b, 2), i);
    let old = to - from;
    let need = len.saturating_sub(old);
    let free = room_in(b);
    if need > free {
        return Err(Full { need, free });
    }
    let place = Splice {
        at: i,
        gone: 1,
        come: 1,
        from,
        old,
        new: len,
    };
    place.apply(b);
    zero(b, from + len - need, from + len);
    Ok(())
}

/// The room for headers and bodies.
#[tactic(auto, unfolding(crate::specs::Laid::room_of))]
pub(crate) fn room_in(b: &[u8]) -> u16
    requires { length b.now ≡ 4096 }
    ensures { result ≡ room_of b.now }
{
    if get16(b, 2) == 0 {
        NODE_ROOM
    } else {
        get16(b, 4)
    }
}

/// Sets the start of free space anew where there are no items.
fn settle(b: &mut [u8])
    requires { IsLaid b.old }
    ensures { Settles b.old b.new }
{
    if get16(b, 2) == 0 {
        put16(b, 4, NODE_ROOM);
        put16(b, 6, NODE_HEAD);
    }
}

/// Writes the header of item `i`.
fn put_header(b: &mut [u8], i: u16, key: &Key, offset: u16, plugin: u16)
    requires whole { length b.old ≡ 4096 }
    requires within { 38 * (i + 1) ≤ 4096 }
    ensures bytes { b.new ≡ overwrite (header i) (fields_bytes (header_fields key.now offset plugin)) b.old }
    ensures key { key_at b.new i ≡ key.now }
    ensures offset { offset_at b.new i ≡ offset }
    ensures plugin { plugin_at b.new i ≡ plugin }
    ensures flags { item_flags_at b.new i ≡ 0 }
{
    let at = header_of(i);
    put64(b, at, key.el[0]);
    put64(b, at + 8, key.el[1]);
    put64(b, at + 16, key.el[2]);
    put64(b, at + 24, key.el[3]);
    put16(b, at + 32, offset);
    put16(b, at + 34, 0);
    put16(b, at + 36, plugin);
}

/// Makes the bytes from `from` up to `to` zero.
fn zero(b: &mut [u8], from: u16, to: u16)
    requires order { from ≤ to }
    requires within { to ≤ length b.old }
    ensures { b.new ≡ overwrite from (replicate (to - from) 0) b.old }
{
    blank(&mut b[from as usize..to as usize]);
}

/// Makes the block a node without items.
#[tactic(auto, unfolding(crate::specs::Laid::fresh_node))]
pub(crate) fn format_block(b: &mut [u8], level: u8, mkfs_id: u32)
    requires whole { length b.old ≡ 4096 }
    requires level { (1 ≤ level) × (level ≤ 8) }
    ensures bytes { b.new ≡ fresh_node level mkfs_id }
{
    blank(b);
    put16(b, 4, NODE_ROOM);
    put16(b, 6, NODE_HEAD);
    put32(b, 8, MAGIC);
    put32(b, 12, mkfs_id);
    b[26] = level;
}

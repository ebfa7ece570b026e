//! What a node's block says of its items, field by field (docs/layout.md, "Nodes").

ghost use Rattle.std.specs.Prelude.{◌≡◌, ◌+◌, ◌*◌, ◌≤◌, length};
ghost use Rattle.r4_base.specs.Node.{header, key_at, offset_at, plugin_at, edge_at};

use r4_base::{ITEM_HEADER, Key, get16, get64};

/// Where the header of item `i` begins: header 0 ends the block, and each ends where the one before it begins.
pub(crate) fn header_of(i: u16) -> usize
    requires { 38 * (i + 1) ≤ 4096 }
    ensures { result ≡ header i }
{
    4096 - ITEM_HEADER as usize * (i as usize + 1)
}

/// The key of item `i`.
#[tactic(auto, unfolding(r4_base::specs::Node::key_at))]
pub(crate) fn key_of(b: &[u8], i: u16) -> Key
    requires whole { length b.now ≡ 4096 }
    requires within { 38 * (i + 1) ≤ 4096 }
    ensures { result ≡ key_at b.now i }
{
    let at = header_of(i);
    Key {
        el: [
            get64(b, at),
            get64(b, at + 8),
            get64(b, at + 16),
            get64(b, at + 24),
        ],
    }
}

/// Where the body of item `i` begins.
#[tactic(auto, unfolding(r4_base::specs::Node::offset_at))]
pub(crate) fn offset_of(b: &[u8], i: u16) -> u16
    requires whole { length b.now ≡ 4096 }
    requires within { 38 * (i + 1) ≤ 4096 }
    ensures { result ≡ offset_at b.now i }
{
    get16(b, header_of(i) + 32)
}

/// The plugin of item `i`.
#[tactic(auto, unfolding(r4_base::specs::Node::plugin_at))]
pub(crate) fn plugin_of(b: &[u8], i: u16) -> u16
    requires whole { length b.now ≡ 4096 }
    requires within { 38 * (i + 1) ≤ 4096 }
    ensures { result ≡ plugin_at b.now i }
{
    get16(b, header_of(i) + 36)
}

/// Where the body of item `i` begins, or where the bodies end where there is no such item.
#[tactic(auto, unfolding(r4_base::specs::Node::edge_at))]
pub(crate) fn edge_of(b: &[u8], count: u16, i: u16) -> u16
    requires whole { length b.now ≡ 4096 }
    requires room { 38 * count ≤ 4096 }
    requires within { i ≤ count }
    ensures { result ≡ edge_at count b.now i }
{
    if i == count {
        get16(b, 6)
    } else {
        offset_of(b, i)
    }
}

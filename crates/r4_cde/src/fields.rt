//! What the body of a directory item says, field by field (docs/layout.md, "Items").

ghost use Rattle.std.specs.Prelude.{◌≡◌, ◌+◌, ◌*◌, ◌<◌, ◌≤◌, length};
ghost use Rattle.r4_base.specs.Dir.{entry_count, entry_edge, entry_header, entry_key_at, entry_offset, target_of};
ghost use Rattle.r4_base.specs.Entries.{IsLaid};

use r4_base::{Key, Oid, Target, get16, get64};

/// How many bytes the count has.
pub(crate) const COUNT: usize = 2;

/// How many bytes an entry's header has.
pub(crate) const HEADER: usize = 26;

/// How many bytes a target has.
pub(crate) const TARGET: usize = 24;

/// Where the header of entry `i` begins; the headers of `i` entries end there.
pub(crate) fn header_of(i: u16) -> usize
    ensures { result ≡ entry_header i }
{
    COUNT + HEADER * usize::from(i)
}

/// The key of entry `i`, in the directory of the item's key.
#[tactic(auto, unfolding(r4_base::specs::Dir::entry_key_at))]
pub(crate) fn key_in(item: &Key, body: &[u8], i: u16) -> Key
    requires { entry_header (i + 1) ≤ length body.now }
    ensures { result ≡ entry_key_at item.now body.now i }
{
    let at = header_of(i);
    Key {
        el: [
            item.el[0],
            get64(body, at),
            get64(body, at + 8),
            get64(body, at + 16),
        ],
    }
}

/// Where the body of entry `i` begins.
#[tactic(auto, unfolding(r4_base::specs::Dir::entry_offset))]
pub(crate) fn offset_in(body: &[u8], i: u16) -> u16
    requires { entry_header (i + 1) ≤ length body.now }
    ensures { result ≡ entry_offset body.now i }
{
    get16(body, header_of(i) + 24)
}

/// Where the body of entry `i` begins, or where the last one ends where there is no such entry, of `count` entries.
#[tactic(auto, unfolding(r4_base::specs::Dir::entry_edge))]
pub(crate) fn edge_in(body: &[u8], count: u16, i: u16) -> usize
    requires counted { count ≡ entry_count body.now }
    requires within { i ≤ count }
    requires room { entry_header count ≤ length body.now }
    ensures { result ≡ entry_edge body.now i }
{
    if i == count {
        body.len()
    } else {
        usize::from(offset_in(body, i))
    }
}

/// The target that an entry's body names.
#[tactic(auto, unfolding(r4_base::specs::Dir::target_of))]
pub(crate) fn target_in(body: &[u8]) -> Target
    requires { 24 ≤ length body.now }
    ensures { result ≡ target_of body.now }
{
    Target {
        locality: get64(body, 0),
        ordering: get64(body, 8),
        oid: Oid(get64(body, 16)),
    }
}

/// Where the body of entry `i` begins and ends.
pub(crate) fn place_of(body: &[u8], count: u16, i: u16) -> (usize, usize)
    requires laid { IsLaid body.now }
    requires counted { count ≡ entry_count body.now }
    requires within { i < count }
    ensures from { result.0 ≡ entry_offset body.now i }
    ensures to { result.1 ≡ entry_edge body.now (i + 1) }
    ensures room { result.0 + 24 ≤ result.1 }
    ensures inside { result.1 ≤ length body.now }
{
    (usize::from(offset_in(body, i)), edge_in(body, count, i + 1))
}

//! What is wrong with a directory item (docs/layout.md, "Items").

ghost use Rattle.std.specs.Prelude.{◌≡◌, ◌+◌, ◌<◌, ◌≤◌, true, length};
ghost use Rattle.r4_base.specs.Name.{is_long_key};
ghost use Rattle.r4_base.specs.Dir.{dir_fault, entries_fault, entry_count, entry_fault, entry_header, entry_name_is_good, entry_offset_is_good, entry_order_is_good};

use crate::fields::{COUNT, TARGET, edge_in, header_of, key_in, offset_in};
use crate::name::{is_key_of, is_long};
use crate::short::ShortName;
use r4_base::{DirFault, Key, get16};

/// The first fault of a body under the item's key.
#[tactic(auto, unfolding(r4_base::specs::Dir::dir_fault))]
pub(crate) fn fault_of(item: &Key, body: &[u8]) -> Option<DirFault>
    ensures { result ≡ dir_fault item.now body.now }
{
    if body.len() < COUNT {
        return Some(DirFault::Count);
    }
    let count = get16(body, 0);
    if count == 0 || header_of(count) > body.len() {
        return Some(DirFault::Count);
    }
    fault_of_entries(item, body, count)
}

/// The first fault of the entries, in order.
fn fault_of_entries(item: &Key, body: &[u8], count: u16) -> Option<DirFault>
    requires counted { count ≡ entry_count body.now }
    requires room { entry_header count ≤ length body.now }
    ensures { result ≡ entries_fault item.now count 0 body.now }
{
    for i in 0..count {
        if let Some(fault) = fault_of_entry(item, body, count, i) {
            return Some(fault);
        }
    }
    None
}

/// The first fault of entry `i`.
#[tactic(auto, unfolding(r4_base::specs::Dir::entry_fault))]
fn fault_of_entry(item: &Key, body: &[u8], count: u16, i: u16) -> Option<DirFault>
    requires counted { count ≡ entry_count body.now }
    requires room { entry_header count ≤ length body.now }
    requires within { i < count }
    ensures { result ≡ entry_fault item.now body.now i }
{
    if !is_in_place(body, count, i) {
        return Some(DirFault::Offset(i));
    }
    if !is_in_order(item, body, i) {
        return Some(DirFault::Order(i));
    }
    let from = usize::from(offset_in(body, i));
    let to = edge_in(body, count, i + 1);
    if !is_named(&key_in(item, body, i), &body[from..to]) {
        return Some(DirFault::Name(i));
    }
    None
}

/// Whether the body of entry `i` ends within the item and has room for a target, and that of entry 0 begins behind the
/// headers.
fn is_in_place(body: &[u8], count: u16, i: u16) -> bool
    requires counted { count ≡ entry_count body.now }
    requires room { entry_header count ≤ length body.now }
    requires within { i < count }
    ensures { result ≡ entry_offset_is_good body.now i }
{
    let from = usize::from(offset_in(body, i));
    let to = edge_in(body, count, i + 1);
    let begins = i > 0 || from == header_of(count);
    begins && to <= body.len() && from + TARGET <= to
}

/// Whether entry 0 has the item's key, or a later one a key above the one before it.
fn is_in_order(item: &Key, body: &[u8], i: u16) -> bool
    requires { entry_header (i + 1) ≤ length body.now }
    ensures { result ≡ entry_order_is_good item.now body.now i }
{
    let key = key_in(item, body, i);
    if i == 0 {
        key.is_same(*item)
    } else {
        key_in(item, body, i - 1).is_below(key)
    }
}

/// Whether an entry's body is exactly of the form of its key's name.
fn is_named(key: &Key, body: &[u8]) -> bool
    requires { 24 ≤ length body.now }
    ensures { result ≡ entry_name_is_good key.now body.now }
{
    if is_long(key) {
        is_long_named(key, body)
    } else {
        body.len() == TARGET && is_key_of(key, ShortName::spelled_by(key).as_bytes())
    }
}

/// Whether a body has a target, the name of a long name's key, and a zero.
fn is_long_named(key: &Key, body: &[u8]) -> bool
    requires long { is_long_key key.now ≡ true }
    requires room { 24 ≤ length body.now }
    ensures { result ≡ entry_name_is_good key.now body.now }
{
    let end = body.len() - 1;
    if end < TARGET {
        return false;
    }
    body[end] == 0 && is_key_of(key, &body[TARGET..end])
}

//! Names, and the keys of the entries that have them (docs/layout.md, "Names").

ghost use Rattle.std.specs.Prelude.{◌≡◌, ◌+◌, ◌^◌, ◌<◌, ◌≤◌, ◌==◌, ◌&&◌, ◌||◌, ℕ, List, length, drop, slice_index, IsTrue, None, Some, IfSome, IfNone, IfOk, IfErr, All};
ghost use Rattle.std.specs.List.{position_from};
ghost use Rattle.std.specs.Option.{is_none};
ghost use Rattle.r4_base.specs.Key.{rank};
ghost use Rattle.r4_base.specs.Name.{IsShortNameKey, dir_of_key, is_dots, is_long_key, key_of_name, name_fault, packed, r5_of};
ghost use Rattle.r4_cde.specs.Shown.{short_bytes};

use crate::short::ShortName;
use r4_base::{Key, NameFault, Oid};

/// The most bytes that a name has.
const NAME_MAX: usize = 255;

/// The most bytes that a name has which its key spells.
const SHORT_MAX: usize = 23;

/// What is set in the ordering of a long name's key.
const LONG: u64 = 1 << 56;

/// The key of the entry with this name in a directory, whose id is below 2^60, or the first fault of bytes that are no
/// name (docs/layout.md, "Names").
pub fn entry_key(dir: Oid, name: &[u8]) -> Result<Key, NameFault>
    requires { dir.0 < 2 ^ 60 }
    ensures legal { IfOk result (λ k. name_fault name.now ≡ None) }
    ensures key { IfOk result (λ k. k ≡ key_of_name dir.0 name.now) }
    ensures err { IfErr result (λ e. name_fault name.now ≡ Some e) }
{
    match fault_of(name) {
        Some(fault) => Err(fault),
        None => Ok(key_of(dir, name)),
    }
}

/// The name that a key spells, and `None` exactly where the key is that of no name of at most 23 bytes (docs/layout.md,
/// "Names").
pub fn name_of_key(key: &Key) -> Option<ShortName>
    ensures some { IfSome result (λ s. IsShortNameKey key.now (short_bytes s)) }
    ensures none { IfNone result ((s : List ℕ) → All (λ c. c < 256) s → IsShortNameKey key.now s → ⊥) }
{
    let name = ShortName::spelled_by(key);
    is_key_of(key, name.as_bytes()).then_some(name)
}

/// Whether a key is that of a long name: the upper byte of its ordering is 1.
pub(crate) fn is_long(key: &Key) -> bool
    ensures { result ≡ is_long_key key.now }
{
    key.el[1] >> 56 == 1
}

/// Whether bytes are a name, and the key is the one that it has in the key's directory.
pub(crate) fn is_key_of(key: &Key, name: &[u8]) -> bool
    ensures is { result ≡ is_none (name_fault name.now) && rank (key_of_name (dir_of_key key.now) name.now) == rank key.now }
    ensures key { IsTrue result → key_of_name (dir_of_key key.now) name.now ≡ key.now }
{
    match entry_key(Oid(key.el[0] / 16), name) {
        Ok(named) => named == *key,
        Err(_) => false,
    }
}

/// The hash of bytes, from 0 on: for each byte `c`, the hash `a` before it becomes `(a + 16c + c/16) * 11` modulo 2^64
/// (docs/layout.md, "Names").
pub fn r5(bytes: &[u8]) -> u64
    ensures { result ≡ r5_of bytes.now }
{
    let mut hash: u64 = 0;
    for byte in bytes {
        let c = u64::from(*byte);
        hash = hash.wrapping_add(16 * c + c / 16).wrapping_mul(11);
    }
    hash
}

/// The first fault of bytes that are no name.
#[tactic(auto, unfolding(r4_base::specs::Name::name_fault))]
fn fault_of(name: &[u8]) -> Option<NameFault>
    ensures { result ≡ name_fault name.now }
{
    if name.is_empty() {
        return Some(NameFault::Empty);
    }
    if name.len() > NAME_MAX {
        return Some(NameFault::Long(name.len()));
    }
    if let Some(at) = bad_byte(name) {
        return Some(NameFault::Byte(at));
    }
    is_dots(name).then_some(NameFault::Dot)
}

/// The place of the first byte that no name has: a zero or a slash.
fn bad_byte(name: &[u8]) -> Option<usize>
    ensures { result ≡ position_from (λ c. c == 0 || c == 47) 0 name.now }
{
    name.iter().position(|c| *c == 0 || *c == b'/')
}

/// Whether the bytes are "." or "..".
fn is_dots(name: &[u8]) -> bool
    ensures { result ≡ is_dots name.now }
{
    matches!(name, [b'.'] | [b'.', b'.'])
}

/// The key of a name in a directory.
#[tactic(auto, unfolding(r4_base::specs::Name::key_of_name))]
fn key_of(dir: Oid, name: &[u8]) -> Key
    requires { dir.0 < 2 ^ 60 }
    ensures { result ≡ key_of_name dir.0 name.now }
{
    let first = packed(name, 0, 7);
    let (ordering, offset) = if name.len() > SHORT_MAX {
        (LONG + first, r5(&name[15..]))
    } else {
        (first, packed(name, 15, 8))
    };
    Key {
        el: [dir.0 * 16, ordering, packed(name, 7, 8), offset],
    }
}

/// The `n` bytes from place `from` on as a number, the first one the highest; where bytes are missing, zeros.
fn packed(name: &[u8], from: usize, n: usize) -> u64
    requires few { n ≤ 8 }
    requires low { from ≤ 15 }
    ensures number { result ≡ packed n (drop from name.now) }
    ensures small { result < 256 ^ n }
{
    let mut number = 0;
    for i in from..from + n {
        number = number * 256 + u64::from(byte_or_zero(name, i));
    }
    number
}

/// The byte at place `i`, or zero past the end.
fn byte_or_zero(name: &[u8], i: usize) -> u8
    ensures { result ≡ slice_index name.now i }
{
    name.get(i).copied().unwrap_or(0)
}

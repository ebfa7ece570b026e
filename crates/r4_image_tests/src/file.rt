//! A file of 16,384 bytes in leaves of so many bytes each, and a small file behind it.

use r4_base::{Key, Oid};
use r4_cell::least;
use r4_outside::MemoryDevice;
use r4_tree_testing::{Item, Object, ROOT, entry, lay, pointer, stat, tail};
use std::alloc::Global;
use std::test::Fail;

/// How many bytes the file has.
pub const SIZE: u64 = 16_384;

/// The first leaf's block; those of the further leaves come behind it.
pub const FIRST: u64 = 23;

// The root directory, with two entries.
const TOP: Object = Object {
    nlink: 2,
    size: 2,
    ..ROOT
};

const FILE: Object = Object {
    letter: b'f',
    dir: 42,
    oid: 65_536,
    mode: 0o100644,
    nlink: 1,
    size: SIZE,
};

const SMALL: Object = Object {
    letter: b'g',
    oid: 65_537,
    size: 5,
    ..FILE
};

/// The byte of the file at an offset: those of one leaf are equal, and those of the next one other.
pub fn byte(offset: u64, len: u16) -> u8 {
    let leaf = offset.checked_div(u64::from(len)).unwrap_or(0);
    let letter = u8::try_from(leaf % 26).unwrap_or(0);
    b'a'.saturating_add(letter)
}

// Lays the leaf of stat data and entries.
fn lay_first(alloc: Global, dev: &mut MemoryDevice) -> Result<(), Fail> {
    let items = [
        stat(alloc, least(), &TOP.attr())?,
        entry(alloc, Oid(42), b"f", &FILE.target())?,
        entry(alloc, Oid(42), b"g", &SMALL.target())?,
        stat(alloc, FILE.stat_key(), &FILE.attr())?,
        stat(alloc, SMALL.stat_key(), &SMALL.attr())?,
    ];
    lay(alloc, dev, FIRST, 1, &items)
}

// Lays a leaf of the file; in the last one stands the small file too.
fn lay_leaf(
    alloc: Global,
    dev: &mut MemoryDevice,
    at: u64,
    offset: u64,
    len: u16,
) -> Result<(), Fail> {
    let left = u16::try_from(SIZE.saturating_sub(offset)).unwrap_or(len);
    let mut items = Vec::new(alloc);
    items.push(tail(alloc, FILE.byte(offset), len.min(left), byte(offset, len))?)?;
    if left <= len {
        items.push(tail(alloc, SMALL.byte(0), 5, b'g')?)?;
    }
    lay(alloc, dev, at, 1, items.as_slice())
}

// How many leaves of so many bytes the file has.
fn leaves(len: u16) -> u64 {
    let len = u64::from(len);
    SIZE.saturating_add(len)
        .saturating_sub(1)
        .checked_div(len)
        .unwrap_or(0)
}

/// Lays the leaves in blocks one after the other, and gives the pointers to them.
pub fn lay_file(alloc: Global, dev: &mut MemoryDevice, len: u16) -> Result<Vec<Item>, Fail> {
    lay_first(alloc, dev)?;
    let mut pointers = Vec::new(alloc);
    pointers.push(pointer(alloc, least(), FIRST)?)?;
    for nth in 0..leaves(len) {
        let at = FIRST.saturating_add(1).saturating_add(nth);
        let offset = nth.saturating_mul(u64::from(len));
        lay_leaf(alloc, dev, at, offset, len)?;
        pointers.push(pointer(alloc, key(offset), at)?)?;
    }
    Ok(pointers)
}

// The key of a byte of the file.
fn key(offset: u64) -> Key {
    FILE.byte(offset)
}

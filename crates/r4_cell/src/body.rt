//! The bodies of items: whether they are accepted, and where the units of an item end.

ghost use Rattle.std.specs.Prelude.{◌≡◌, ◌≤◌, ◌+◌, ◌^◌, ◌<◌, ◌&&◌, ℕ, length, nat_le, nat_lt, not};
ghost use Rattle.r4_base.specs.Bitmap.{is_fixed};
ghost use Rattle.r4_base.specs.Extents.{blocks_in};
ghost use Rattle.r4_node40.specs.View.{item_shown};
ghost use Rattle.r4_twig.specs.View.{view_units};
ghost use Rattle.r4_cell.specs.Ends.{FindsEnd, IsLastByte};

use r4_base::{
    BLOCK_BYTES, BlockNo, CellFault, ENTRIES, EXTENT, Key, POINTER, STAT, TAIL_END, is_fixed,
};
use r4_cde::DirView;
use r4_meta::read_stat;
use r4_node40::ItemView;
use r4_twig::{ExtentView, pointer};

/// The key of the last unit of an item, or why its body is refused on a volume of `blocks` blocks. There is no key where
/// the last unit has an offset of 2^64 or more. A pointer counts as one unit.
pub fn last_key(item: &ItemView<'_>, blocks: u64) -> Result<Option<Key>, CellFault>
    requires { length item.now.body.now ≤ 4096 }
    ensures { FindsEnd blocks (item_shown item.now) result }
{
    match item.plugin {
        STAT => last_of_stat(item),
        ENTRIES => last_of_directory(item),
        POINTER => last_of_pointer(item, blocks),
        EXTENT => last_of_extent(item, blocks),
        _ => last_of_tail(item),
    }
}

// Stat data have one unit.
fn last_of_stat(item: &ItemView<'_>) -> Result<Option<Key>, CellFault>
    requires { item.now.plugin ≡ 0 }
    ensures { (blocks : ℕ) → FindsEnd blocks (item_shown item.now) result }
{
    match read_stat(item.body) {
        Ok(_) => Ok(Some(item.key)),
        Err(fault) => Err(CellFault::Stat(fault)),
    }
}

// The last unit of a directory item is its last entry.
fn last_of_directory(item: &ItemView<'_>) -> Result<Option<Key>, CellFault>
    requires { item.now.plugin ≡ 2 }
    ensures { (blocks : ℕ) → FindsEnd blocks (item_shown item.now) result }
{
    match DirView::read(&item.key, item.body) {
        Ok(entries) => Ok(Some(entries.entry(entries.len() - 1).key)),
        Err(fault) => Err(CellFault::Dir(fault)),
    }
}

// A pointer names a block of the volume that is not fixed.
fn last_of_pointer(item: &ItemView<'_>, blocks: u64) -> Result<Option<Key>, CellFault>
    requires { item.now.plugin ≡ 3 }
    ensures { FindsEnd blocks (item_shown item.now) result }
{
    let Some(BlockNo(to)) = pointer(item.body) else {
        return Err(CellFault::Pointer);
    };
    if !is_block(blocks, to) {
        return Err(CellFault::Pointer);
    }
    Ok(Some(item.key))
}

// Whether a block is one of the volume, and not a fixed one.
fn is_block(blocks: u64, b: u64) -> bool
    ensures { result ≡ (nat_lt b blocks && not (is_fixed blocks b)) }
{
    b < blocks && !is_fixed(blocks, b)
}

// An extent has as many bytes as its units have blocks, holes too.
fn last_of_extent(item: &ItemView<'_>, blocks: u64) -> Result<Option<Key>, CellFault>
    requires plugin { item.now.plugin ≡ 5 }
    requires short { length item.now.body.now ≤ 4096 }
    ensures { FindsEnd blocks (item_shown item.now) result }
{
    match ExtentView::read(item.body, blocks) {
        Ok(extent) => Ok(last_byte(&item.key, BLOCK_BYTES as u128 * blocks_of(&extent))),
        Err(fault) => Err(CellFault::Extent(fault)),
    }
}

// How many blocks the units of an extent have, holes too.
fn blocks_of(extent: &ExtentView<'_>) -> u128
    ensures sum { result ≡ blocks_in (view_units extent.now) }
    ensures small { result < 2 ^ 80 }
{
    let mut blocks: u128 = 0;
    for i in 0..extent.len() {
        blocks += extent.unit(i).width as u128;
    }
    blocks
}

// A tail has a byte at least, and ends at byte 16384 at most.
fn last_of_tail(item: &ItemView<'_>) -> Result<Option<Key>, CellFault>
    requires plugin { (item.now.plugin ≡ 0 → ⊥) × (item.now.plugin ≡ 2 → ⊥) × (item.now.plugin ≡ 3 → ⊥) × (item.now.plugin ≡ 5 → ⊥) }
    requires short { length item.now.body.now ≤ 4096 }
    ensures { (blocks : ℕ) → FindsEnd blocks (item_shown item.now) result }
{
    let length = item.body.len() as u64;
    if !is_short(item.key.el[3], length) {
        return Err(CellFault::Tail);
    }
    Ok(last_byte(&item.key, length as u128))
}

// Whether there are bytes, and none at or past offset 16384.
fn is_short(from: u64, length: u64) -> bool
    ensures { result ≡ (nat_le 1 length && nat_le (from + length) 16384) }
{
    length >= 1 && from <= TAIL_END && length <= TAIL_END - from
}

// The key of the last of so many bytes from a key on: none where its offset is 2^64 or more.
fn last_byte(key: &Key, bytes: u128) -> Option<Key>
    requires some { 1 ≤ bytes }
    requires few { bytes < 2 ^ 100 }
    ensures { IsLastByte key.now bytes result }
{
    let end = key.el[3] as u128 + bytes;
    if end > 1 << 64 {
        return None;
    }
    Some(key.with_offset((end - 1) as u64))
}

//! Cells that are made by hand, and a table that they are put in.

ghost use Rattle.std.specs.Prelude.{◌≡◌, ℕ, [], ◌∷◌, IfOk, OnOk};
ghost use Rattle.r4_buffer.specs.Changed.{replaced};
ghost use Rattle.r4_buffer.specs.Seen.{buffered, cells_of};
ghost use Rattle.std.specs.Arc.{arc_value};

use r4_base::{Block, Key, NodeId, put16, put32, put64};
use r4_buffer::Buffer;
use r4_cell::{Cell, read_cell};
use std::alloc::Global;
use std::fmt::Debug;
use std::process::Abort;
use std::sync::Arc;
use std::test::Fail;

/// A key of the root directory.
pub fn key(offset: u64) -> Key {
    Key {
        el: [657, 0, 42, offset],
    }
}

/// Spells a node: a leaf without items, or one of a higher level with a pointer at this offset.
pub fn spell_node(block: &mut Block, level: u8, offset: u64, to: u64) {
    spell_head(block, level);
    if level > 1 {
        put64(block.bytes_mut(), 28, to);
        spell_key(block, offset);
        spell_item(block);
    }
}

// What a node says of itself, and of its free bytes.
fn spell_head(block: &mut Block, level: u8) {
    let (count, free, start) = if level > 1 {
        (1, 4022, 36)
    } else {
        (0, 4068, 28)
    };
    let bytes = block.bytes_mut();
    put16(bytes, 2, count);
    put16(bytes, 4, free);
    put16(bytes, 6, start);
    put32(bytes, 8, 0x5234_4653);
    bytes[26] = level;
}

// The key of the pointer, of the root directory.
fn spell_key(block: &mut Block, offset: u64) {
    let bytes = block.bytes_mut();
    put64(bytes, 4058, 657);
    put64(bytes, 4074, 42);
    put64(bytes, 4082, offset);
}

// Where the pointer stands.
fn spell_item(block: &mut Block) {
    let bytes = block.bytes_mut();
    put16(bytes, 4090, 28);
    put16(bytes, 4094, 3);
}

/// A cell of a level, for the keys from one offset up to another.
pub fn cell(alloc: Global, id: u64, level: u8, lo: u64, hi: u64) -> Result<Arc<Cell>, Fail>
    ensures level { IfOk result (λ c. (arc_value c).level ≡ level) }
    ensures id { IfOk result (λ c. (arc_value c).id ≡ id) }
{
    let mut block = Block::zeroed(alloc)?;
    if level > 0 {
        spell_node(&mut block, level, lo, 500);
    }
    match read_cell(alloc, NodeId(id), level, key(lo), key(hi), 1000, block) {
        Ok(cell) => Ok(cell),
        Err(_) => Err(Fail::from("this is no cell")),
    }
}

/// One more task uses a cell.
pub fn use_one(alloc: Global, buffer: &mut Buffer, cell: Arc<Cell>) -> Result<(), Fail> {
    let mut met = Vec::new(alloc);
    met.push(cell)?;
    buffer.room(alloc, 1)?;
    buffer.use_all(met);
    Ok(())
}

/// One more task uses a cell that is made for it.
pub fn use_made(
    alloc: Global,
    buffer: &mut Buffer,
    id: u64,
    level: u8,
    lo: u64,
    hi: u64,
) -> Result<(), Fail> {
    use_one(alloc, buffer, cell(alloc, id, level, lo, hi)?)
}

/// A leaf is made and comes where none goes.
pub fn put_leaf(alloc: Global, buffer: &mut Buffer, id: u64, lo: u64, hi: u64) -> Result<(), Fail> {
    put_one(alloc, buffer, &[], cell(alloc, id, 1, lo, hi)?)
}

/// A cell is put in place of others.
pub fn put_one(
    alloc: Global,
    buffer: &mut Buffer,
    old: &[Arc<Cell>],
    cell: Arc<Cell>,
) -> Result<(), Fail>
    ensures { OnOk result ((i : ℕ) → buffered buffer.new i ≡
        replaced (cells_of old.now) (arc_value cell ∷ []) i (buffered buffer.old i)) }
{
    let mut new = Vec::new(alloc);
    new.push(cell)?;
    buffer.room(alloc, 1)?;
    buffer.put(old, new);
    Ok(())
}

/// A cell comes under its name in place of another name.
pub fn rename(alloc: Global, buffer: &mut Buffer, from: u64, cell: Arc<Cell>) -> Result<(), Fail> {
    if cell.id().0 == from {
        return Err(Fail::from("the name is the same"));
    }
    buffer.room(alloc, 1)?;
    buffer.rename(NodeId(from), cell);
    Ok(())
}

/// Whether a name has a cell, how many tasks use it, and whether it is dirty.
pub fn stands(buffer: &Buffer, id: u64) -> (bool, u32, bool) {
    let id = NodeId(id);
    (
        buffer.get(id).is_some(),
        buffer.uses(id),
        buffer.is_dirty(id),
    )
}

/// Ends the test unless a name stands as is wanted: `stands` says how.
pub fn stands_as<X: Abort>(
    rt: &X,
    buffer: &Buffer,
    id: u64,
    wanted: (bool, u32, bool),
    what: &str,
) {
    same(rt, &stands(buffer, id), &wanted, what);
}

/// Ends the test unless the two are equal. `what` says what they are.
pub fn same<T: PartialEq + Debug, X: Abort>(rt: &X, got: &T, wanted: &T, what: &str) {
    assert_eq!(rt; *got, *wanted, "{what}");
}

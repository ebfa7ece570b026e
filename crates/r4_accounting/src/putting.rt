//! A change takes the place of old cells.

ghost use Rattle.std.specs.Prelude.{◌≡◌, ◌<◌, ◌≤◌, IfErr, OnOk};
ghost use Rattle.r4_accounting.specs.Putting.{CanPut, HasNumbers, HasPlaced, IsPriceable};
ghost use Rattle.r4_done.specs.r4_buffer.Seen.{cells_of};
ghost use Rattle.r4_space.specs.Space.{free_of, need_at};

use crate::freeing::tell_space;
use crate::owning::take_over;
use r4_atoms::{Account, Atoms};
use r4_base::{AtomNo, bitmap_count};
use r4_cell::Cell;
use r4_done::Buffer;
use r4_space::{Short, SpaceMap, price};
use std::alloc::Global;
use std::sync::Arc;

/// Whether as many of so many blocks are free as an atom's account takes besides what the atom
/// takes up already. No memory (docs/space.md, "Price and free").
///
/// # Errors
/// `Short` where less is free.
pub fn afford(
    space: &SpaceMap,
    blocks: u64,
    atom: AtomNo,
    before: &Account,
    after: &Account,
) -> Result<(), Short>
    requires blocks { blocks ≡ space.now.block_count }
    requires numbers { HasNumbers space.now atom before.now }
    requires before { IsPriceable before.now }
    requires after { IsPriceable after.now }
    ensures enough { OnOk result (need_at space.now atom after.now.cells after.now.fresh
        ≤ free_of space.now) }
    ensures short { IfErr result (λ e. (e.free < e.need) × (e.free ≡ free_of space.now)
        × (e.need ≡ need_at space.now atom after.now.cells after.now.fresh)) }
{
    let _ = atom;
    space.lawful();
    let bitmaps = bitmap_count(blocks);
    let due = price(before.cells, bitmaps) + before.fresh;
    let need = (price(after.cells, bitmaps) + after.fresh).saturating_sub(due);
    let free = space.free();
    if free < need {
        return Err(Short { need, free });
    }
    Ok(())
}

/// A change takes the place of old cells, in the space, in the table of atoms and in memory. There
/// is room for all of it, and enough is free. No memory.
pub fn put_change(
    space: &mut SpaceMap,
    atoms: &mut Atoms,
    buffer: &mut Buffer,
    alloc: Global,
    atom: AtomNo,
    account: Account,
    old: &[Arc<Cell>],
    new: Vec<Arc<Cell>>,
)
    requires { CanPut space.old atoms.old buffer.old atom account (cells_of old.now)
        (cells_of new.items) }
    ensures { HasPlaced space.old space.new atoms.old atoms.new buffer.old buffer.new atom account
        (cells_of old.now) (cells_of new.items) }
{
    let Ok(()) = tell_space(space, atom, &account, old, new.as_slice()) else {
        unreachable!();
    };
    take_over(atoms, alloc, atom, account, old, new.as_slice());
    buffer.put(old, new);
}

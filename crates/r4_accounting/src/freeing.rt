//! What the space is told of a change.

ghost use Rattle.std.specs.Prelude.{◌≡◌, ◌∷◌, ◌+◌, ◌<◌, ◌≤◌, ◌^◌, ℕ, [], Contains};
ghost use Rattle.std.specs.Prelude.{IfErr, OnErr, OnOk, false, length, true};
ghost use Rattle.r4_base.specs.Bitmap.{bitmap_count};
ghost use Rattle.r4_done.specs.r4_buffer.Seen.{cells_of};
ghost use Rattle.r4_cell.specs.Seen.{CellSeen};
ghost use Rattle.r4_accounting.specs.Accounting.{HasBlock, HasDeferred, freed, frees};
ghost use Rattle.r4_done.specs.Doing.{HasCharged};
ghost use Rattle.r4_space.specs.Accounts.{dues, is_open, is_sealed};
ghost use Rattle.r4_space.specs.Space.{charged, free_of, need_at, unused_count, used_up};

use crate::counting::{has_name, is_fresh};
use r4_atoms::Account;
use r4_base::{AtomNo, BlockNo};
use r4_cell::Cell;
use r4_space::{Short, SpaceMap};
use std::sync::Arc;

/// The space takes what an atom's account is after a change, and defers the blocks of the cells
/// that go, where they are used: on a damaged image they need not be. No memory (docs/space.md).
///
/// # Errors
/// `Short` where less is free than that takes: nothing is deferred then, and the numbers stay.
pub fn tell_space(
    space: &mut SpaceMap,
    atom: AtomNo,
    account: &Account,
    old: &[Arc<Cell>],
    new: &[Arc<Cell>],
) -> Result<(), Short>
    requires cells { account.now.cells < 2 ^ 32 }
    requires fresh { account.now.fresh < 2 ^ 32 }
    requires unsealed { is_sealed space.old.sealed atom ≡ false }
    requires covered { dues (bitmap_count space.old.block_count) space.old.atoms
        ≤ unused_count space.old }
    requires blocks { (x : CellSeen) → Contains (cells_of old.now) x → HasBlock space.old x }
    requires room { 1 + length (freed space.old (cells_of old.now) (cells_of new.now))
        ≤ space.old.spare }
    ensures deferred { OnOk result (HasDeferred
        (charged space.old atom account.now.cells account.now.fresh) space.new atom
        (cells_of old.now) (cells_of new.now)) }
    ensures told { OnOk result ((calls : ℕ)
        → 1 + length (freed space.old (cells_of old.now) (cells_of new.now)) ≤ calls
        → HasCharged space.old space.new atom account.now.cells account.now.fresh calls) }
    ensures short { IfErr result (λ e. (e.free < e.need) × (e.free ≡ free_of space.old)
        × (e.need ≡ need_at space.old atom account.now.cells account.now.fresh)) }
    ensures stays { OnErr result (space.new ≡ used_up space.old) }
{
    space.lawful();
    space.charge(atom, account.cells, account.fresh)?;
    defer_all(space, atom, old, new);
    Ok(())
}

// The blocks of the old cells that go are deferred for their atom, which has an account. There is
// room for each.
fn defer_all(space: &mut SpaceMap, atom: AtomNo, old: &[Arc<Cell>], new: &[Arc<Cell>])
    requires opened { is_open space.old.atoms atom ≡ true }
    requires blocks { (x : CellSeen) → Contains (cells_of old.now) x → HasBlock space.old x }
    requires room { length (freed space.old (cells_of old.now) (cells_of new.now))
        ≤ space.old.spare }
    ensures { HasDeferred space.old space.new atom (cells_of old.now) (cells_of new.now) }
{
    for cell in old {
        defer_one(space, atom, cell, new);
    }
}

// So is that of one cell, where it goes.
fn defer_one(space: &mut SpaceMap, atom: AtomNo, cell: &Cell, new: &[Arc<Cell>])
    requires opened { is_open space.old.atoms atom ≡ true }
    requires block { HasBlock space.old cell.now }
    requires room { length (freed space.old (cell.now ∷ []) (cells_of new.now)) ≤ space.old.spare }
    ensures { HasDeferred space.old space.new atom (cell.now ∷ []) (cells_of new.now) }
{
    if frees(space, new, cell) {
        space.defer(atom, BlockNo(cell.id().0));
    }
}

// Whether a cell goes that has a block, which is used.
fn frees(space: &SpaceMap, new: &[Arc<Cell>], cell: &Cell) -> bool
    ensures { result ≡ frees space.now (cells_of new.now) cell.now }
{
    !is_fresh(cell) && !has_name(new, cell.id()) && space.is_used(BlockNo(cell.id().0))
}

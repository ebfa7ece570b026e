//! An atom takes cells as its own, and gives up blocks.

ghost use Rattle.std.specs.Prelude.{◌∷◌, ◌+◌, ◌<◌, ◌≤◌, [], Contains, length};
ghost use Rattle.r4_atoms.specs.Atoms.{IsFreeFor, IsOpenAtom};
ghost use Rattle.r4_done.specs.r4_buffer.Seen.{cells_of};
ghost use Rattle.r4_cell.specs.Seen.{CellSeen};
ghost use Rattle.r4_accounting.specs.Accounting.{HasOwned, HasTakenOver};

use r4_atoms::{Account, Atoms};
use r4_base::AtomNo;
use r4_cell::Cell;
use std::alloc::Global;
use std::sync::Arc;

// An open atom owns each of these cells then. No other open atom owns one of them, and there is
// room for each, so none is refused.
fn own_all(atoms: &mut Atoms, alloc: Global, atom: AtomNo, cells: &[Arc<Cell>])
    requires opened { IsOpenAtom atoms.old atom.0 }
    requires free { (x : CellSeen) → Contains (cells_of cells.now) x
        → IsFreeFor atoms.old atom.0 x.id }
    requires room { length cells.now ≤ atoms.old.spare }
    ensures { HasOwned atoms.old atoms.new atom.0 (cells_of cells.now) }
{
    for cell in cells {
        own(atoms, alloc, atom, cell);
    }
}

// It owns one cell more.
fn own(atoms: &mut Atoms, alloc: Global, atom: AtomNo, cell: &Cell)
    requires opened { IsOpenAtom atoms.old atom.0 }
    requires free { IsFreeFor atoms.old atom.0 cell.now.id }
    requires room { 0 < atoms.old.spare }
    ensures { HasOwned atoms.old atoms.new atom.0 (cell.now ∷ []) }
{
    if atoms.capture(alloc, atom, cell.id()).is_err() {
        unreachable!();
    }
}

/// An open atom owns all cells of a change then, the old and the new ones, and has this account.
/// There is room for each; it takes no memory.
pub fn take_over(
    atoms: &mut Atoms,
    alloc: Global,
    atom: AtomNo,
    account: Account,
    old: &[Arc<Cell>],
    new: &[Arc<Cell>],
)
    requires opened { IsOpenAtom atoms.old atom.0 }
    requires old { (x : CellSeen) → Contains (cells_of old.now) x
        → IsFreeFor atoms.old atom.0 x.id }
    requires new { (x : CellSeen) → Contains (cells_of new.now) x
        → IsFreeFor atoms.old atom.0 x.id }
    requires room { length old.now + length new.now ≤ atoms.old.spare }
    ensures { HasTakenOver atoms.old atoms.new atom.0 account (cells_of old.now)
        (cells_of new.now) }
{
    own_all(atoms, alloc, atom, old);
    own_all(atoms, alloc, atom, new);
    atoms.charge(atom, account);
}

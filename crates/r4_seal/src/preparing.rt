//! What is prepared for an atom, and whether it may be sealed with it.

ghost use Rattle.std.specs.Prelude.{◌≡◌, ◌↔◌, ◌+◌, ◌<◌, ◌≤◌, ◌^◌, ℕ, Contains, IfOk, List};
ghost use Rattle.std.specs.Prelude.{None, Some, true};
ghost use Rattle.std.specs.List.Sorted.{IsStrictlyIncreasing};
ghost use Rattle.r4_atoms.specs.Atoms.{IsAtom, IsClosedAtom, account_of, numbers, owner_of};
ghost use Rattle.r4_cell.specs.Seen.{CellSeen};
ghost use Rattle.r4_core.specs.r4_flushing.Sealable.{MaySeal};
ghost use Rattle.r4_core.specs.r4_flushing.Sealing.{super_to_come};
ghost use Rattle.r4_core.specs.r4_kept.History.{owed};
ghost use Rattle.r4_seal.specs.Checked.{AreCounted};

use crate::checking::{are_clear, are_used, names_are_clear};
use crate::gathering::cells_under;
use r4_base::{AtomNo, FIRST_OBJECT, Memory, NodeId, Super40};
use r4_closed::are_closed;
use r4_core::{Core, Prepared, prepare};
use r4_outside::{Device, Run};
use std::alloc::Global;

// The superblock to come.
fn super_to_come<D: Device, R: Run>(core: &Core<D, R>, atom: AtomNo) -> Super40
    requires { IsAtom core.now.atoms atom.0 }
    ensures { result ≡ super_to_come core.now atom.0 }
{
    let last = core.volume().super40;
    let tree = core.tree();
    let account = core.atoms().account(atom);
    let (root_block, tree_height) = match core.atoms().owner(tree.id) {
        Some(owner) if owner == atom => (tree.id.0, u16::from(tree.height)),
        _ => (last.root_block, last.tree_height),
    };
    Super40 {
        root_block,
        tree_height,
        oid: core.numbers().next_oid,
        file_count: last
            .file_count
            .saturating_add(account.born)
            .saturating_sub(account.gone),
        ..last
    }
}

// Whether the atom has cells, the next id is one, and the objects are counted in 64 bits.
fn are_counted<D: Device, R: Run>(core: &Core<D, R>, atom: AtomNo) -> bool
    requires { IsAtom core.now.atoms atom.0 }
    ensures { result ≡ true → AreCounted core.now atom }
{
    let account = core.atoms().account(atom);
    let files = core.volume().super40.file_count;
    account.cells > 0
        && core.numbers().next_oid >= FIRST_OBJECT
        && files.checked_add(account.born).is_some()
}

// What is prepared for the atom that owns these nodes, where it may be sealed with that; there is
// room for its three entries. The only error is want of memory; and where the image is damaged so
// that the atom may not be sealed, there is none either.
pub(crate) fn prepare_for<D: Device, R: Run>(
    core: &Core<D, R>,
    alloc: Global,
    atom: AtomNo,
    nodes: &[NodeId],
) -> Result<Prepared, Memory>
    requires sound { core.now.broken ≡ None }
    requires rest { core.now.commit ≡ None }
    requires closed { IsClosedAtom core.now.atoms atom.0 }
    requires entries { owed core.now.turns + 3 ≤ core.now.trace.spare }
    requires rising { IsStrictlyIncreasing (numbers nodes.now) }
    requires owned { (n : ℕ) → Contains (numbers nodes.now) n
        ↔ (owner_of core.now.atoms n ≡ Some atom.0) }
    ensures { IfOk result (λ p. (cells : List CellSeen) × MaySeal core.now atom p cells) }
{
    core.lawful();
    core.space().lawful();
    if !are_counted(core, atom) || !are_used(core.space(), nodes) {
        return Err(Memory);
    }
    let cells = cells_under(alloc, core.buffer(), nodes)?;
    if !are_closed(alloc, cells.as_slice(), core.tree().id)? {
        return Err(Memory);
    }
    let next = super_to_come(core, atom);
    let prev = core.volume().prev;
    let prepared = prepare(alloc, atom, cells, &next, prev, core.space())?;
    let blocks = prepared.plan.first_blocks(alloc)?;
    if are_clear(core, blocks.as_slice()) && names_are_clear(core, prepared.renamed.as_slice()) {
        Ok(prepared)
    } else {
        Err(Memory)
    }
}

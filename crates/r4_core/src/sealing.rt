//! Atoms are sealed.

ghost use Rattle.std.specs.Prelude.{◌≡◌, ◌+◌, ◌≤◌, ℕ, [], List, None, OnErr, OnOk, Some};
ghost use Rattle.r4_atoms.specs.Atoms.{IsOpenAtom, IsOpenIn, owner_of};
ghost use Rattle.r4_cell.specs.Seen.{CellSeen};
ghost use Rattle.r4_flushing.specs.Sealable.{MaySeal};
ghost use Rattle.r4_flushing.specs.Sealing.{HasSealed};
ghost use Rattle.r4_ready.specs.r4_kept.History.{owed};
ghost use Rattle.r4_ready.specs.r4_kept.Steps.{sealed_empty};
ghost use Rattle.r4_ready.specs.Rooms.{HasMoreRoom};
ghost use Rattle.r4_flushing.specs.r4_renaming.Renaming.{name_then};

use crate::core_state::Core;
use r4_base::{AtomNo, Memory, NodeId};
use r4_cell::{Root, on_disk_law};
use r4_flushing::{Prepared, RenamedCell, rename_atom};
use r4_outside::{Device, Run};
use r4_ready::Commit;
use r4_trace::Entry;
use r4_turns::Nodes;
use std::alloc::Global;

impl<D: Device, R: Run> Core<D, R> {
    /// An atom is sealed that owns no cell. Its commit is under way then, and writes nothing.
    pub fn seal_empty(&mut self, atom: AtomNo, nodes: Nodes)
        requires sound { self.old.broken ≡ None }
        requires rest { self.old.commit ≡ None }
        requires unsealed { IsOpenAtom self.old.atoms atom.0 }
        requires closed { (t : ℕ) → IsOpenIn self.old.atoms atom.0 t → ⊥ }
        requires none { (i : ℕ) → owner_of self.old.atoms i ≡ Some atom.0 → ⊥ }
        requires nodes { nodes ≡ [] }
        requires room { owed self.old.turns + 2 ≤ self.old.trace.spare }
        ensures { self.new ≡ sealed_empty self.old atom }
    {
        self.atoms.lawful();
        let Ok(()) = self.atoms.seal(atom) else {
            unreachable!();
        };
        self.trace.push(Entry::Sealed { atom });
        self.commit = Some(Commit {
            atom,
            nodes,
            work: None,
        });
    }

    /// An atom is sealed that owns cells, with what was prepared for them: they have the names of
    /// their blocks, wherever they are named, and its commit is under way. The device is not called.
    /// The only error is want of memory; then there may be more room, and all else is as it was
    /// (docs/core.md, "Sealing").
    pub fn seal(&mut self, alloc: Global, atom: AtomNo, prepared: Prepared) -> Result<(), Memory>
        requires may { (cells : List CellSeen) × MaySeal self.old atom prepared cells }
        ensures ok { OnOk result ((cells : List CellSeen) → MaySeal self.old atom prepared cells
            → HasSealed self.old self.new atom cells prepared) }
        ensures err { OnErr result (HasMoreRoom self.old self.new) }
    {
        on_disk_law();
        self.space.lawful();
        self.buffer.lawful();
        self.atoms.lawful();
        let Prepared {
            renamed,
            root: _,
            plan,
            mut space,
        } = prepared;
        let id = new_name(&renamed, self.tree.id);
        let named = rename_atom(
            alloc,
            atom,
            renamed,
            &mut self.buffer,
            &mut self.atoms,
            &mut self.turns,
        );
        self.buffer.lawful();
        let nodes = named?;
        let Ok(()) = self.atoms.seal(atom) else {
            unreachable!();
        };
        space.seal(atom);
        self.space = space;
        self.tree = Root {
            id,
            height: self.tree.height,
        };
        self.trace.push(Entry::Sealed { atom });
        self.commit = Some(Commit {
            atom,
            nodes,
            work: Some(plan),
        });
        Ok(())
    }
}

// What becomes of a name.
fn new_name(renamed: &[RenamedCell], name: NodeId) -> NodeId
    ensures { result.0 ≡ name_then renamed.now name.0 }
{
    for one in renamed {
        if one.was == name {
            return one.cell.id();
        }
    }
    name
}

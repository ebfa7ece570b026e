//! An atom is flushed.

ghost use Rattle.std.specs.Prelude.{◌≡◌, None, OnErr, OnOk};
ghost use Rattle.r4_atoms.specs.Atoms.{IsClosedAtom};
ghost use Rattle.r4_core.specs.r4_ready.Rooms.{HasMoreRoom};
ghost use Rattle.r4_seal.specs.Flushing.{IsFlushed, RefusesWaiting};

use crate::preparing::prepare_for;
use crate::waiting::refuse_waiting;
use r4_base::{AtomNo, Memory};
use r4_core::{Core, Wanted};
use r4_outside::{Device, Run};
use r4_turns::Nodes;
use std::alloc::Global;

// The entries of a commit: that its atom is sealed, that it is committed, and that a call failed.
const THREE_ENTRIES: Wanted = Wanted {
    entries: 3,
    cells: 0,
    met: 0,
    claims: 0,
};

/// An atom that was never sealed and has no open transaction is sealed, and its commit is under way: its
/// cells have the names of their blocks, the plan of the commit is made, and the space has placed and
/// holds what it takes. All memory of the commit is taken; the device is not called. The only error is
/// want of memory. Then each `commit` at which a script waits for the atom is refused with `memory`, by
/// rising script; and but for room all else is as it was. On a damaged image `Memory` also comes where a
/// block that the commit would write is one on which something stands that the image does not mark, or
/// where cells do not name each other (docs/core.md, "Flushing").
pub fn flush<D: Device, R: Run>(
    core: &mut Core<D, R>,
    alloc: Global,
    atom: AtomNo,
) -> Result<(), Memory>
    requires sound { core.old.broken ≡ None }
    requires rest { core.old.commit ≡ None }
    requires closed { IsClosedAtom core.old.atoms atom.0 }
    ensures sealed { OnOk result (IsFlushed core.old core.new atom) }
    ensures waits { OnErr result (RefusesWaiting core.old core.new atom) }
{
    let sealed = seal(core, alloc, atom);
    if sealed.is_err() {
        refuse_waiting(core, atom);
    }
    sealed
}

// The atom is sealed, if there is memory.
fn seal<D: Device, R: Run>(core: &mut Core<D, R>, alloc: Global, atom: AtomNo) -> Result<(), Memory>
    requires sound { core.old.broken ≡ None }
    requires rest { core.old.commit ≡ None }
    requires closed { IsClosedAtom core.old.atoms atom.0 }
    ensures ok { OnOk result (IsFlushed core.old core.new atom) }
    ensures err { OnErr result (HasMoreRoom core.old core.new) }
{
    core.make_room(alloc, THREE_ENTRIES)?;
    let nodes = core.atoms().nodes(alloc, atom)?;
    if nodes.is_empty() {
        core.seal_empty(atom, Nodes::from_vec(nodes));
        return Ok(());
    }
    let prepared = prepare_for(core, alloc, atom, nodes.as_slice())?;
    core.seal(alloc, atom, prepared)
}

//! New names in memory, in the table of atoms, and for tasks that are out.

ghost use Rattle.std.specs.Prelude.{IfOk, OnErr};
ghost use Rattle.r4_renaming.specs.Renamed.{CanRename, HasNewNames, StaysNamed};

use crate::cells::{make_room, rename_cells};
use crate::names::read_names;
use crate::owners::{read_nodes, rename_owned};
use crate::pins::{put_pins, read_pins};
use r4_atoms::Atoms;
use r4_base::{AtomNo, Memory};
use r4_buffer::Buffer;
use r4_flush::RenamedCell;
use r4_turns::{Nodes, Turns};
use std::alloc::Global;

/// The cells of an atom get their new names: in memory, as nodes that the atom owns, and where they are
/// kept for tasks that are out. No number of a new cell is the atom's any more. Answers the nodes that it
/// owns then, those of its cells and blocks of cells that are gone. All memory is taken before the first
/// of these changes; where there is none, there may be more room for cells, and all else is as it was.
/// It costs the cells, the nodes that any atom captured, the number of scripts, each of which is looked at
/// for a task, and what is kept for tasks that are out (docs/core.md, "Sealing").
pub fn rename_atom(
    alloc: Global,
    atom: AtomNo,
    renamed: Vec<RenamedCell>,
    buffer: &mut Buffer,
    atoms: &mut Atoms,
    turns: &mut Turns,
) -> Result<Nodes, Memory>
    requires { CanRename
        (record { buffer = buffer.old; atoms = atoms.old; turns = turns.old }) atom.0
        renamed.items }
    ensures ok { IfOk result (HasNewNames
        (record { buffer = buffer.old; atoms = atoms.old; turns = turns.old })
        (record { buffer = buffer.new; atoms = atoms.new; turns = turns.new }) atom.0
        renamed.items) }
    ensures err { OnErr result (StaysNamed
        (record { buffer = buffer.old; atoms = atoms.old; turns = turns.old })
        (record { buffer = buffer.new; atoms = atoms.new; turns = turns.new })) }
{
    let owned = atoms.nodes(alloc, atom)?;
    let nodes = read_nodes(alloc, owned.as_slice(), renamed.as_slice())?;
    let names = read_names(alloc, renamed.as_slice())?;
    let pins = read_pins(alloc, turns, &names)?;
    make_room(alloc, buffer, renamed.len() as u64)?;
    rename_owned(atoms, owned.as_slice(), renamed.as_slice());
    rename_cells(buffer, renamed);
    put_pins(turns, pins);
    Ok(nodes)
}

//! Which other atoms own a node of a reach.

use r4_atoms::Atoms;
use r4_base::{AtomNo, NodeId, ScriptNo, TxnNo};
use r4_others::{Other, others};
use std::alloc::Global;
use std::process::Abort;
use std::test::Fail;

// Captures a node for an atom.
fn capture(
    rt: &impl Abort,
    alloc: Global,
    atoms: &mut Atoms,
    atom: u32,
    node: u64,
) -> Result<(), Fail> {
    assert!(rt; atoms.is_atom(AtomNo(atom)));
    assert!(rt; !atoms.is_sealed(AtomNo(atom)));
    assert!(rt; atoms.capture(alloc, AtomNo(atom), NodeId(node)).is_ok());
    Ok(())
}

// Ends the transaction of an atom, and seals the atom.
fn seal(rt: &impl Abort, atoms: &mut Atoms, atom: u32) {
    assert!(rt; 0 < atom);
    assert!(rt; atom <= atoms.begun());
    assert!(rt; atoms.is_open(TxnNo(atom)));
    atoms.close(TxnNo(atom));
    assert!(rt; atoms.is_atom(AtomNo(atom)));
    assert!(rt; !atoms.is_sealed(AtomNo(atom)));
    assert!(rt; atoms.seal(AtomNo(atom)).is_ok());
}

// Four atoms: the first owns 5 and 8, the second 7 and 4, the third 9, and the last 6, which is
// sealed.
fn four(rt: &impl Abort, alloc: Global) -> Result<Atoms, Fail> {
    let mut atoms = Atoms::new(alloc);
    for _ in 0..4u32 {
        assert!(rt; atoms.begun() < 4);
        let _ = atoms.begin(alloc, ScriptNo(1))?;
    }
    for (atom, node) in [(1, 5), (1, 8), (2, 7), (2, 4), (3, 9), (4, 6)] {
        capture(rt, alloc, &mut atoms, atom, node)?;
    }
    seal(rt, &mut atoms, 4);
    Ok(atoms)
}

// Another atom with its node.
fn other(atom: u32, node: u64) -> Other {
    Other {
        atom: AtomNo(atom),
        node: NodeId(node),
    }
}

#[test]
fn each_atom_stands_once_with_its_smallest_node(rt: HostRuntime) -> Result<(), Fail> {
    let atoms = four(&rt, rt.alloc())?;
    let reads = [NodeId(7), NodeId(9), NodeId(1)];
    let writes = [NodeId(6), NodeId(4), NodeId(8), NodeId(7)];
    let found = others(rt.alloc(), &atoms, AtomNo(3), &reads, &writes)?;
    assert!(rt; found.as_slice() == [other(1, 8), other(2, 4)].as_slice());
    Ok(())
}

#[test]
fn an_atom_may_be_still_to_begin(rt: HostRuntime) -> Result<(), Fail> {
    let atoms = four(&rt, rt.alloc())?;
    let found = others(rt.alloc(), &atoms, AtomNo(5), &[NodeId(9)], &[NodeId(6)])?;
    assert!(rt; found.as_slice() == [other(3, 9)].as_slice());
    Ok(())
}

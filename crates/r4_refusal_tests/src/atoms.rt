//! Transactions that are begun, and nodes that their atoms capture.

use crate::same::same;
use r4_atoms::{Atoms, CaptureFault};
use r4_base::{AtomNo, NodeId, ScriptNo};
use std::alloc::Global;
use std::process::Abort;
use std::test::Fail;

// Begins the first transaction; once more where memory was refused, and then all stands as before.
fn begin_first<X: Abort>(rt: &X, alloc: Global, atoms: &mut Atoms) -> Result<(), Fail> {
    if atoms.begun() > 0 {
        return Err(Fail::from("no transaction"));
    }
    if atoms.begin(alloc, ScriptNo(1)).is_err() {
        same(rt, &atoms.begun(), &0, "transactions, as before");
        let again = atoms.begin(alloc, ScriptNo(1)).is_ok();
        same(rt, &again, &true, "begun when it comes again");
    }
    same(rt, &atoms.begun(), &1, "transactions");
    Ok(())
}

// Captures a node; once more where memory was refused, and then all stands as before.
fn capture_first<X: Abort>(
    rt: &X,
    alloc: Global,
    atoms: &mut Atoms,
    atom: AtomNo,
    node: NodeId,
) -> Result<(), Fail> {
    if !atoms.is_atom(atom) || atoms.is_sealed(atom) {
        return Err(Fail::from("an open atom"));
    }
    if let Err(fault) = atoms.capture(alloc, atom, node) {
        same(rt, &fault, &CaptureFault::Memory, "why it was not captured");
        same(rt, &atoms.owner(node), &None, "the node, as before");
        let again = atoms.capture(alloc, atom, node);
        same(rt, &again, &Ok(()), "captured when it comes again");
    }
    same(rt, &atoms.owner(node), &Some(atom), "the node");
    Ok(())
}

// A transaction begins, and its atom captures a node.
fn begin_and_capture<X: Abort>(rt: &X, alloc: Global, atoms: &mut Atoms) -> Result<(), Fail> {
    begin_first(rt, alloc, atoms)?;
    capture_first(rt, alloc, atoms, AtomNo(1), NodeId(23))
}

#[test]
fn atoms_stay_where_memory_is_refused(rt: HostRuntime) -> Result<(), Fail> {
    let alloc = rt.alloc();
    let mut atoms = Atoms::new(alloc);
    begin_and_capture(&rt, alloc, &mut atoms)
}

// Room for transactions and captures; once more where memory was refused.
fn room(alloc: Global, atoms: &mut Atoms) -> bool {
    let txns = atoms.room_for_txns(alloc, 2).is_ok() || atoms.room_for_txns(alloc, 2).is_ok();
    let captures = atoms.room(alloc, 2).is_ok() || atoms.room(alloc, 2).is_ok();
    txns && captures
}

// Begins a transaction, for which there is room.
fn begin_one<X: Abort>(rt: &X, alloc: Global, atoms: &mut Atoms) -> Result<(), Fail> {
    if atoms.begun() > 0 {
        return Err(Fail::from("no transaction"));
    }
    let txn = atoms.begin(alloc, ScriptNo(1));
    same(rt, &txn.is_ok(), &true, "begun without memory");
    Ok(())
}

// Captures a node, for which there is room.
fn capture_one<X: Abort>(
    rt: &X,
    alloc: Global,
    atoms: &mut Atoms,
    atom: AtomNo,
    node: NodeId,
) -> Result<(), Fail> {
    if !atoms.is_atom(atom) || atoms.is_sealed(atom) {
        return Err(Fail::from("an open atom"));
    }
    let captured = atoms.capture(alloc, atom, node);
    same(rt, &captured, &Ok(()), "captured without memory");
    Ok(())
}

// The nodes of an atom; once more where memory was refused.
fn nodes(alloc: Global, atoms: &Atoms, atom: AtomNo) -> Result<Vec<NodeId>, Fail> {
    if !atoms.is_atom(atom) {
        return Err(Fail::from("an atom"));
    }
    match atoms.nodes(alloc, atom) {
        Ok(nodes) => Ok(nodes),
        Err(_refused) => Ok(atoms.nodes(alloc, atom)?),
    }
}

// With room for both, a transaction begins, and its atom captures a node.
fn fill<X: Abort>(
    rt: &X,
    alloc: Global,
    atoms: &mut Atoms,
    atom: AtomNo,
    node: NodeId,
) -> Result<(), Fail> {
    same(rt, &room(alloc, atoms), &true, "room");
    begin_one(rt, alloc, atoms)?;
    capture_one(rt, alloc, atoms, atom, node)
}

// Ends the test unless this is the one node of the atom.
fn has_node<X: Abort>(
    rt: &X,
    alloc: Global,
    atoms: &Atoms,
    atom: AtomNo,
    node: NodeId,
) -> Result<(), Fail> {
    let nodes = nodes(alloc, atoms, atom)?;
    same(rt, &nodes.as_slice(), &[node].as_slice(), "its nodes");
    Ok(())
}

// An atom gets one node.
fn fill_and_look<X: Abort>(rt: &X, alloc: Global, atoms: &mut Atoms) -> Result<(), Fail> {
    let (atom, node) = (AtomNo(1), NodeId(23));
    fill(rt, alloc, atoms, atom, node)?;
    has_node(rt, alloc, atoms, atom, node)
}

#[test]
fn room_is_made_again_where_memory_is_refused(rt: HostRuntime) -> Result<(), Fail> {
    let alloc = rt.alloc();
    let mut atoms = Atoms::new(alloc);
    fill_and_look(&rt, alloc, &mut atoms)
}

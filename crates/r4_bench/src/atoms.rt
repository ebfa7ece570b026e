//! Transactions that are begun, capture a node each, and are fused.

ghost use Rattle.std.specs.Prelude.{◌<◌, IsTrue};
ghost use Rattle.r4_atoms.specs.Atoms.{FitTogether};

use crate::fault::Fault;
use r4_atoms::{Account, Atoms};
use r4_base::{AtomNo, NodeId, ScriptNo, TxnNo};
use std::alloc::Global;

/// So many transactions are begun, each captures a node, and all are fused: the first half in a star
/// with the first one, the others in a chain from the last one on. The atom of the last one.
pub fn fuse_all(alloc: Global, count: u32) -> Result<AtomNo, Fault> {
    let mut atoms = Atoms::new(alloc);
    begin_all(alloc, &mut atoms, count)?;
    let half = count / 2;
    for i in 2..half + 1 {
        fuse(&mut atoms, TxnNo(1), TxnNo(i))?;
    }
    for i in half + 1..count {
        fuse(&mut atoms, TxnNo(i), TxnNo(i + 1))?;
    }
    fuse(&mut atoms, TxnNo(1), TxnNo(count))?;
    atom_of(&atoms, TxnNo(count))
}

// So many transactions are begun, each with a node of its own.
fn begin_all(alloc: Global, atoms: &mut Atoms, count: u32) -> Result<(), Fault> {
    for i in 0..count {
        if atoms.begun() >= 100_000_000 {
            return Err(Fault::Unfit);
        }
        let txn = atoms.begin(alloc, ScriptNo(1))?;
        capture(alloc, atoms, AtomNo(txn.0), NodeId(u64::from(i)))?;
    }
    Ok(())
}

fn capture(alloc: Global, atoms: &mut Atoms, atom: AtomNo, node: NodeId) -> Result<(), Fault> {
    if !atoms.is_atom(atom) {
        return Err(Fault::Unfit);
    }
    if atoms.is_sealed(atom) {
        return Err(Fault::Unfit);
    }
    match atoms.capture(alloc, atom, node) {
        Ok(()) => Ok(()),
        Err(_) => Err(Fault::Memory),
    }
}

// The atom of a transaction.
fn atom_of(atoms: &Atoms, txn: TxnNo) -> Result<AtomNo, Fault> {
    if txn.0 == 0 {
        return Err(Fault::Unfit);
    }
    if atoms.begun() < txn.0 {
        return Err(Fault::Unfit);
    }
    Ok(atoms.atom(txn))
}

// The atoms of two transactions become one.
fn fuse(atoms: &mut Atoms, one: TxnNo, two: TxnNo) -> Result<(), Fault> {
    let one = atom_of(atoms, one)?;
    let two = atom_of(atoms, two)?;
    fuse_open(atoms, one, two)
}

fn fuse_open(atoms: &mut Atoms, one: AtomNo, two: AtomNo) -> Result<(), Fault> {
    if !atoms.is_atom(one) {
        return Err(Fault::Unfit);
    }
    if atoms.is_sealed(one) {
        return Err(Fault::Unfit);
    }
    if !atoms.is_atom(two) {
        return Err(Fault::Unfit);
    }
    if atoms.is_sealed(two) {
        return Err(Fault::Unfit);
    }
    if !fit(&atoms.account(one), &atoms.account(two)) {
        return Err(Fault::Unfit);
    }
    let _ = atoms.fuse(one, two);
    Ok(())
}

// Whether the numbers of two accounts are small.
fn fit(one: &Account, two: &Account) -> bool
    ensures { IsTrue result → FitTogether one.now two.now }
{
    is_small(one) && is_small(two)
}

fn is_small(account: &Account) -> bool
    ensures { IsTrue result → (account.now.cells < 1000000) × (account.now.fresh < 1000000)
        × (account.now.born < 1000000) × (account.now.gone < 1000000) }
{
    account.cells < 1_000_000
        && account.fresh < 1_000_000
        && account.born < 1_000_000
        && account.gone < 1_000_000
}

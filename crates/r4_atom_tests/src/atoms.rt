//! Runs of transactions: chains and stars of a thousand, and one atom after another that is sealed, committed and cleaned.

ghost use Rattle.std.specs.Prelude.{◌≡◌, ◌<◌, IsTrue};
ghost use Rattle.r4_atoms.specs.Atoms.{FitTogether};

use r4_atoms::{Account, Atoms, CaptureFault, StillOpen, Uncommitted};
use r4_base::{AtomNo, NodeId, ScriptNo, TxnNo};
use std::alloc::Global;
use std::process::Abort;
use std::test::Fail;

// Begins a transaction.
fn begin(rt: &impl Abort, alloc: Global, atoms: &mut Atoms, script: u32) -> Result<AtomNo, Fail> {
    assert!(rt; atoms.begun() < 1_000_000);
    let txn = atoms.begin(alloc, ScriptNo(script))?;
    Ok(AtomNo(txn.0))
}

// Captures a node for an atom.
fn capture(
    rt: &impl Abort,
    alloc: Global,
    atoms: &mut Atoms,
    atom: AtomNo,
    node: u64,
) -> Result<(), CaptureFault> {
    assert!(rt; atoms.is_atom(atom));
    assert!(rt; !atoms.is_sealed(atom));
    atoms.capture(alloc, atom, NodeId(node))
}

// Whether the numbers of two accounts are small.
fn fit(one: &Account, two: &Account) -> bool
    ensures { IsTrue result → FitTogether one.now two.now }
{
    is_small(one) && is_small(two)
}

fn is_small(account: &Account) -> bool
    ensures { IsTrue result → (account.now.cells < 1000000) × (account.now.fresh < 1000000) × (account.now.born < 1000000) × (account.now.gone < 1000000) }
{
    account.cells < 1_000_000
        && account.fresh < 1_000_000
        && account.born < 1_000_000
        && account.gone < 1_000_000
}

// Fuses two atoms whose accounts are small.
fn fuse(rt: &impl Abort, atoms: &mut Atoms, one: AtomNo, two: AtomNo) -> AtomNo {
    assert!(rt; atoms.is_atom(one));
    assert!(rt; !atoms.is_sealed(one));
    assert!(rt; atoms.is_atom(two));
    assert!(rt; !atoms.is_sealed(two));
    assert!(rt; fit(&atoms.account(one), &atoms.account(two)));
    atoms.fuse(one, two)
}

// Ends the transaction that names an atom.
fn close(rt: &impl Abort, atoms: &mut Atoms, txn: TxnNo) {
    assert!(rt; 0 < txn.0);
    assert!(rt; txn.0 <= atoms.begun());
    assert!(rt; atoms.is_open(txn));
    atoms.close(txn);
}

fn seal(rt: &impl Abort, atoms: &mut Atoms, atom: AtomNo) -> Result<(), StillOpen> {
    assert!(rt; atoms.is_atom(atom));
    assert!(rt; !atoms.is_sealed(atom));
    atoms.seal(atom)
}

// Commits an atom that is sealed.
fn commit(rt: &impl Abort, atoms: &mut Atoms, atom: AtomNo) {
    assert!(rt; atoms.is_atom(atom));
    assert!(rt; atoms.is_sealed(atom));
    assert!(rt; !atoms.is_committed(atom));
    atoms.commit(atom);
}

// Cleans an atom that is sealed.
fn clean(rt: &impl Abort, atoms: &mut Atoms, atom: AtomNo) {
    assert!(rt; atoms.is_atom(atom));
    assert!(rt; atoms.is_sealed(atom));
    atoms.clean(atom);
}

// The atom of a transaction.
fn atom_of(rt: &impl Abort, atoms: &Atoms, txn: u32) -> AtomNo {
    assert!(rt; 0 < txn);
    assert!(rt; txn <= atoms.begun());
    atoms.atom(TxnNo(txn))
}

// The numbers of the nodes that an atom owns.
fn nodes(rt: &impl Abort, alloc: Global, atoms: &Atoms, atom: AtomNo) -> Result<Vec<u64>, Fail> {
    assert!(rt; atoms.is_atom(atom));
    let nodes = atoms.nodes(alloc, atom)?;
    let numbers = nodes.iter().map(|n| n.0).collect(alloc)?;
    Ok(numbers)
}

// Three transactions with a node each.
fn apart(rt: &impl Abort, alloc: Global) -> Result<Atoms, Fail> {
    let mut atoms = Atoms::new(alloc);
    for i in 1..4u32 {
        let atom = begin(rt, alloc, &mut atoms, 7 + i % 2)?;
        let _ = capture(rt, alloc, &mut atoms, atom, 10 * u64::from(i));
    }
    Ok(atoms)
}

// The same, where the first and the third are one atom.
fn three(rt: &impl Abort, alloc: Global) -> Result<Atoms, Fail> {
    let mut atoms = apart(rt, alloc)?;
    assert!(rt; fuse(rt, &mut atoms, AtomNo(3), AtomNo(1)).0 == 1);
    Ok(atoms)
}

// The owners of the three nodes.
fn owners(atoms: &Atoms) -> [Option<AtomNo>; 3] {
    let first = atoms.owner(NodeId(10));
    let second = atoms.owner(NodeId(20));
    let third = atoms.owner(NodeId(30));
    [first, second, third]
}

// The owners before the first and the third atom are fused, and after it.
fn owners_by_a_fuse(rt: &impl Abort, atoms: &mut Atoms) -> [[Option<AtomNo>; 3]; 2] {
    let before = owners(atoms);
    let _ = fuse(rt, atoms, AtomNo(3), AtomNo(1));
    let after = owners(atoms);
    [before, after]
}

#[test]
fn nodes_of_the_gone_atom_are_the_kept_ones(rt: HostRuntime) -> Result<(), Fail> {
    let mut atoms = apart(&rt, rt.alloc())?;
    let found = owners_by_a_fuse(&rt, &mut atoms);
    let before = [Some(AtomNo(1)), Some(AtomNo(2)), Some(AtomNo(3))];
    let after = [Some(AtomNo(1)), Some(AtomNo(2)), Some(AtomNo(1))];
    assert!(rt; found == [before, after]);
    Ok(())
}

// The same, where that atom is sealed.
fn sealed(rt: &impl Abort, alloc: Global) -> Result<Atoms, Fail> {
    let mut atoms = three(rt, alloc)?;
    close(rt, &mut atoms, TxnNo(1));
    close(rt, &mut atoms, TxnNo(3));
    assert!(rt; seal(rt, &mut atoms, AtomNo(1)).is_ok());
    Ok(atoms)
}

// The owners of three nodes, how a script is uncommitted, and the next closed atom.
fn told(atoms: &Atoms) -> ([Option<AtomNo>; 3], Uncommitted, Option<AtomNo>) {
    let first = atoms.owner(NodeId(30));
    let second = atoms.owner(NodeId(20));
    let third = atoms.owner(NodeId(40));
    (
        [first, second, third],
        atoms.uncommitted_of(ScriptNo(8)),
        atoms.next_closed(),
    )
}

#[test]
fn a_fuse_keeps_the_smaller_atom(rt: HostRuntime) -> Result<(), Fail> {
    let atoms = three(&rt, rt.alloc())?;
    let open = Uncommitted::Open {
        atom: AtomNo(1),
        txn: TxnNo(1),
    };
    let owners = [Some(AtomNo(1)), Some(AtomNo(2)), None];
    assert!(rt; told(&atoms) == (owners, open, None));
    Ok(())
}

#[test]
fn a_node_is_captured_once(rt: HostRuntime) -> Result<(), Fail> {
    let mut atoms = three(&rt, rt.alloc())?;
    let refused = capture(&rt, rt.alloc(), &mut atoms, AtomNo(2), 30);
    close(&rt, &mut atoms, TxnNo(1));
    let open = seal(&rt, &mut atoms, AtomNo(1));
    assert!(rt; refused == Err(CaptureFault::Owned { by: AtomNo(1) }));
    assert!(rt; open == Err(StillOpen { txn: TxnNo(3) }));
    Ok(())
}

// Of a sealed atom one node is captured by another one, and then it is committed and cleaned: whether the capture went well,
// whether its script is committed before and after, and the owners of its two nodes then.
fn lose(rt: &impl Abort, alloc: Global, atoms: &mut Atoms) -> ([bool; 3], [Option<AtomNo>; 2]) {
    let is_captured = capture(rt, alloc, atoms, AtomNo(2), 30).is_ok();
    let before = atoms.all_committed(ScriptNo(8));
    commit(rt, atoms, AtomNo(1));
    let after = atoms.all_committed(ScriptNo(8));
    clean(rt, atoms, AtomNo(1));
    let first = atoms.owner(NodeId(10));
    let second = atoms.owner(NodeId(30));
    ([is_captured, before, after], [first, second])
}

#[test]
fn a_sealed_atom_loses_a_node(rt: HostRuntime) -> Result<(), Fail> {
    let mut atoms = sealed(&rt, rt.alloc())?;
    let found = lose(&rt, rt.alloc(), &mut atoms);
    assert!(rt; found == ([true, false, true], [None, Some(AtomNo(2))]));
    Ok(())
}

// Renames two nodes, the second to one that has another owner: the nodes of the first atom then.
fn renamed(rt: &impl Abort, alloc: Global, atoms: &mut Atoms) -> Result<Vec<u64>, Fail> {
    atoms.rename(NodeId(30), NodeId(40));
    atoms.rename(NodeId(20), NodeId(10));
    nodes(rt, alloc, atoms, AtomNo(1))
}

#[test]
fn a_rename_leaves_an_owner(rt: HostRuntime) -> Result<(), Fail> {
    let mut atoms = three(&rt, rt.alloc())?;
    let nodes = renamed(&rt, rt.alloc(), &mut atoms)?;
    let has_none = atoms.owner(NodeId(20)) == None;
    assert!(rt; has_none && nodes.as_slice() == [10, 40].as_slice());
    Ok(())
}

// Charges an atom so many cells.
fn charge(rt: &impl Abort, atoms: &mut Atoms, atom: AtomNo, cells: u64) {
    assert!(rt; atoms.is_atom(atom));
    let account = Account {
        cells,
        fresh: 3,
        born: 2,
        gone: 1,
    };
    atoms.charge(atom, account);
}

// Charges two atoms and fuses them: the one that is left, and its account.
fn added(rt: &impl Abort, alloc: Global, atoms: &mut Atoms) -> Result<(AtomNo, Account), Fail> {
    let one = begin(rt, alloc, atoms, 1)?;
    let two = begin(rt, alloc, atoms, 1)?;
    charge(rt, atoms, one, 5);
    charge(rt, atoms, two, 6);
    let left = fuse(rt, atoms, two, one);
    assert!(rt; atoms.is_atom(one));
    Ok((left, atoms.account(one)))
}

#[test]
fn accounts_are_added(rt: HostRuntime) -> Result<(), Fail> {
    let mut atoms = Atoms::new(rt.alloc());
    let found = added(&rt, rt.alloc(), &mut atoms)?;
    let sum = Account {
        cells: 11,
        fresh: 6,
        born: 4,
        gone: 2,
    };
    assert!(rt; found == (AtomNo(1), sum));
    Ok(())
}

// Begins two thousand transactions with a node each.
fn begin_all(rt: &impl Abort, alloc: Global, atoms: &mut Atoms) -> Result<(), Fail> {
    for i in 0..2000 {
        let atom = begin(rt, alloc, atoms, 1)?;
        let _ = capture(rt, alloc, atoms, atom, i);
    }
    Ok(())
}

// Fuses the first thousand in a chain and the others in a star: the atom of the last one of each.
fn fuse_all(rt: &impl Abort, atoms: &mut Atoms) -> [AtomNo; 2] {
    for i in 1..1000u32 {
        let _ = fuse(rt, atoms, AtomNo(1000 - i), AtomNo(1001 - i));
    }
    for i in 1002..2001u32 {
        let _ = fuse(rt, atoms, AtomNo(i), AtomNo(1001));
    }
    [atom_of(rt, atoms, 1000), atom_of(rt, atoms, 2000)]
}

// How many nodes an atom has.
fn node_count(rt: &impl Abort, alloc: Global, atoms: &Atoms, atom: AtomNo) -> Result<usize, Fail> {
    let nodes = nodes(rt, alloc, atoms, atom)?;
    Ok(nodes.len())
}

#[test]
fn a_thousand_are_fused_in_a_chain_and_in_a_star(rt: HostRuntime) -> Result<(), Fail> {
    let mut atoms = Atoms::new(rt.alloc());
    begin_all(&rt, rt.alloc(), &mut atoms)?;
    let last = fuse_all(&rt, &mut atoms);
    let count = node_count(&rt, rt.alloc(), &atoms, AtomNo(1001))?;
    assert!(rt; last == [AtomNo(1), AtomNo(1001)] && count == 1000);
    Ok(())
}

// Begins a transaction that captures two nodes of its own, and ends, seals, commits and cleans it.
fn pass(rt: &impl Abort, alloc: Global, atoms: &mut Atoms, node: u32) -> Result<(), Fail> {
    let atom = begin(rt, alloc, atoms, 1)?;
    let node = u64::from(node);
    assert!(rt; capture(rt, alloc, atoms, atom, node).is_ok());
    assert!(rt; capture(rt, alloc, atoms, atom, node + 1).is_ok());
    close(rt, atoms, TxnNo(atom.0));
    assert!(rt; seal(rt, atoms, atom).is_ok());
    commit(rt, atoms, atom);
    clean(rt, atoms, atom);
    Ok(())
}

// The same a thousand times, each time with one node of the time before.
fn pass_all(rt: &impl Abort, alloc: Global, atoms: &mut Atoms) -> Result<(), Fail> {
    for i in 0..1000u32 {
        pass(rt, alloc, atoms, 100 + i)?;
    }
    Ok(())
}

#[test]
fn clean_nodes_have_no_owner_whoever_captures(rt: HostRuntime) -> Result<(), Fail> {
    let mut atoms = three(&rt, rt.alloc())?;
    pass_all(&rt, rt.alloc(), &mut atoms)?;
    assert!(rt; owners(&atoms) == [Some(AtomNo(1)), Some(AtomNo(2)), Some(AtomNo(1))]);
    for i in 0..1001u64 {
        assert!(rt; atoms.owner(NodeId(100 + i)) == None);
    }
    let kept = nodes(&rt, rt.alloc(), &atoms, AtomNo(1))?;
    assert!(rt; kept.as_slice() == [10, 30].as_slice());
    Ok(())
}

// Two thousand transactions of three scripts in turn: those of the first but the last one are ended and fused, and one of
// the second ends.
fn take_turns(rt: &impl Abort, alloc: Global, atoms: &mut Atoms) -> Result<(), Fail> {
    for i in 0..2000u32 {
        let _ = begin(rt, alloc, atoms, i % 3)?;
    }
    for i in 0..666u32 {
        close(rt, atoms, TxnNo(3 * i + 1));
        let _ = fuse(rt, atoms, AtomNo(1), AtomNo(3 * i + 1));
    }
    close(rt, atoms, TxnNo(1001));
    Ok(())
}

// What of the three scripts, and of one without a transaction, is not committed.
fn left(atoms: &Atoms) -> [Uncommitted; 4] {
    let first = atoms.uncommitted_of(ScriptNo(0));
    let second = atoms.uncommitted_of(ScriptNo(1));
    let third = atoms.uncommitted_of(ScriptNo(2));
    [first, second, third, atoms.uncommitted_of(ScriptNo(3))]
}

#[test]
fn a_script_is_told_its_own_transactions(rt: HostRuntime) -> Result<(), Fail> {
    let mut atoms = Atoms::new(rt.alloc());
    take_turns(&rt, rt.alloc(), &mut atoms)?;
    let third = Uncommitted::Open {
        atom: AtomNo(3),
        txn: TxnNo(3),
    };
    let first = Uncommitted::Closed(AtomNo(1));
    let second = Uncommitted::Closed(AtomNo(1001));
    assert!(rt; left(&atoms) == [first, second, third, Uncommitted::None]);
    Ok(())
}

// Whether all of each of two scripts is committed.
fn are_committed(atoms: &Atoms) -> [bool; 2] {
    let first = atoms.all_committed(ScriptNo(7));
    [first, atoms.all_committed(ScriptNo(8))]
}

// Seals and commits the first atom, and begins one more transaction of its script: whether all of each script is committed
// before it, behind it and behind the last.
fn commit_one(rt: &impl Abort, alloc: Global, atoms: &mut Atoms) -> Result<[[bool; 2]; 3], Fail> {
    let before = are_committed(atoms);
    commit(rt, atoms, AtomNo(1));
    let behind = are_committed(atoms);
    let _ = begin(rt, alloc, atoms, 8)?;
    Ok([before, behind, are_committed(atoms)])
}

#[test]
fn a_script_is_committed_with_its_last_transaction(rt: HostRuntime) -> Result<(), Fail> {
    let mut atoms = sealed(&rt, rt.alloc())?;
    let found = commit_one(&rt, rt.alloc(), &mut atoms)?;
    assert!(rt; found == [[false, false], [false, true], [false, false]]);
    Ok(())
}

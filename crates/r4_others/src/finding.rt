//! The other open atoms that own a node of a reach.

ghost use Rattle.std.specs.Prelude.{◌≡◌, ◌+◌, ◌≤◌, ◌++◌, IfOk, length, filter_map};
ghost use Rattle.r4_history.specs.Serving.{AreOthers};
ghost use Rattle.r4_others.specs.Others.{other_owner, pairs_of};

use r4_atoms::Atoms;
use r4_base::{AtomNo, Memory, NodeId};
use std::alloc::Global;

/// Another atom, which owns a node that a command reaches. They go by atoms, and then by nodes.
#[derive(Clone, Copy, Debug, PartialEq, Eq, PartialOrd, Ord)]
pub struct Other {
    pub atom: AtomNo,
    pub node: NodeId,
}

/// The other open atoms that own a node of these, rising, each once and with the smallest such
/// node. A sealed atom is none of them, and `own` may be still to begin. For n nodes it takes
/// n log n steps. The only error is want of memory (docs/histories.md).
pub fn others(
    alloc: Global,
    atoms: &Atoms,
    own: AtomNo,
    reads: &[NodeId],
    writes: &[NodeId],
) -> Result<Vec<Other>, Memory>
    ensures exact { IfOk result (λ v. AreOthers atoms.now own.0
        (record { reads = reads.now; writes = writes.now }) (pairs_of v.items)) }
    ensures short { IfOk result (λ v.
        length (pairs_of v.items) ≤ length reads.now + length writes.now) }
{
    let mut others = owners(alloc, atoms, own, reads, writes)?;
    others.sort_unstable();
    others.dedup_by(|later, kept| later.atom == kept.atom);
    Ok(others)
}

// Each node that another open atom owns, with that atom.
fn owners(
    alloc: Global,
    atoms: &Atoms,
    own: AtomNo,
    reads: &[NodeId],
    writes: &[NodeId],
) -> Result<Vec<Other>, Memory>
    ensures { IfOk result (λ v. v.items
        ≡ filter_map (other_owner atoms.now own.0) (reads.now ++ writes.now)) }
{
    reads
        .iter()
        .chain(writes)
        .filter_map(|node| other_owner(atoms, own, *node))
        .collect(alloc)
}

// What owns a node, where it is another atom that is not sealed.
fn other_owner(atoms: &Atoms, own: AtomNo, node: NodeId) -> Option<Other>
    ensures { result ≡ other_owner atoms.now own.0 node }
{
    let atom = atoms.owner(node)?;
    if atom == own || atoms.is_sealed(atom) {
        return None;
    }
    Some(Other { atom, node })
}

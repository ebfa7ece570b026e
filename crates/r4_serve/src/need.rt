//! The nodes that a command needs.

ghost use Rattle.std.specs.Prelude.{◌≡◌, ◌∷◌, [], IfOk, MatchOption, map};
ghost use Rattle.std.specs.Arc.{arc_value};
ghost use Rattle.r4_atoms.specs.Atoms.{numbers};
ghost use Rattle.r4_history.specs.Held.{names_of};
ghost use Rattle.r4_serve.specs.Serving.{IsSealedOwnerOf, NoneSealed, need_in};

use r4_atoms::Atoms;
use r4_base::{AtomNo, Memory, NodeId};
use r4_cell::Cell;
use r4_extent_reach::Reach;
use std::alloc::Global;
use std::marker::Model;
use std::sync::Arc;

/// The nodes that a command reads, and those that it writes, each in their order.
#[derive(Drop)]
pub struct NodesNeeded {
    reads: Vec<NodeId>,
    writes: Vec<NodeId>,
}

impl Model for NodesNeeded {
    ghost use Rattle.r4_history.specs.Held.{Need};

    ghost Value = { Need };

    ghost view = { λ n. record { reads = n.reads.items; writes = n.writes.items } };
}

impl NodesNeeded {
    // Those of the cells of a reach. The only error is want of memory.
    pub(crate) fn of(alloc: Global, reach: &Reach) -> Result<NodesNeeded, Memory>
        ensures { IfOk result (λ n. n ≡ need_in reach.now) }
    {
        Ok(NodesNeeded {
            reads: nodes_of(alloc, reach.reads.as_slice())?,
            writes: nodes_of(alloc, reach.writes.as_slice())?,
        })
    }

    /// Those that it reads.
    pub fn reads(&self) -> &[NodeId]
        ensures { result.now ≡ self.now.reads }
    {
        self.reads.as_slice()
    }

    /// Those that it writes.
    pub fn writes(&self) -> &[NodeId]
        ensures { result.now ≡ self.now.writes }
    {
        self.writes.as_slice()
    }
}

/// The nodes of cells. The only error is want of memory.
pub fn nodes_of(alloc: Global, cells: &[Arc<Cell>]) -> Result<Vec<NodeId>, Memory>
    ensures { IfOk result (λ v. v.items ≡ names_of (map (λ c. arc_value c) cells.now)) }
{
    let mut nodes = Vec::with_capacity(alloc, cells.len())?;
    for cell in cells {
        nodes.push(cell.id())?;
    }
    Ok(nodes)
}

// The sealed atom that owns one of the nodes, the first of them that one owns.
pub(crate) fn sealed_owner(atoms: &Atoms, nodes: &[NodeId]) -> Option<AtomNo>
    ensures { MatchOption result
        (NoneSealed atoms.now (numbers nodes.now))
        (λ a. IsSealedOwnerOf atoms.now (numbers nodes.now) a.0) }
{
    for &node in nodes {
        if let Some(atom) = sealed_by(atoms, node) {
            return Some(atom);
        }
    }
    None
}

// The atom that owns a node, if it is sealed.
fn sealed_by(atoms: &Atoms, node: NodeId) -> Option<AtomNo>
    ensures { MatchOption result
        (NoneSealed atoms.now (node.0 ∷ []))
        (λ a. IsSealedOwnerOf atoms.now (node.0 ∷ []) a.0) }
{
    let owner = atoms.owner(node)?;
    if atoms.is_sealed(owner) {
        return Some(owner);
    }
    None
}

//! What a command that is ready goes out with is gathered, which takes memory.

ghost use Rattle.std.specs.Prelude.{length, ◌≡◌, ◌*◌, ◌+◌, ◌<◌, ◌≤◌, ◌^◌, IfOk, IfSome, IsTrue};
ghost use Rattle.r4_atoms.specs.Atoms.{IsBegun};
ghost use Rattle.r4_seal.specs.r4_serve.Serving.{need_in};
ghost use Rattle.r4_take.specs.Sending.{IsGathered, own_in};

use crate::drawing::Draws;
use crate::lending::{Lent, lent_of};
use r4_atoms::Atoms;
use r4_base::{AtomNo, Memory, NodeId, TxnNo, UNPLACED};
use r4_cell::{Cell, Fresh, Root};
use r4_seal::{Given, NodesNeeded, Other, Reach, Ready, Wanted, nodes_of, others};
use r4_turns::{MOST_NEW, Nodes, Open, Scope};
use std::alloc::{AllocError, Global};
use std::sync::Arc;

/// The transaction of a script's next command, and its atom; whether it is to begin for it.
#[derive(Clone, Copy, Debug, PartialEq, Eq)]
pub struct Own {
    pub txn: TxnNo,
    pub atom: AtomNo,
    pub begins: bool,
}

/// What a command goes out with: what its task is given, and the same for whoever works at it; the
/// nodes that it needs, the cells that were met, the other atoms with which its own one fuses, for
/// how much there is to be room, and for how many names of nodes.
#[derive(Drop)]
pub struct Gathered {
    pub given: Given,
    pub lent: Lent,
    pub need: NodesNeeded,
    pub met: Vec<Arc<Cell>>,
    pub others: Vec<Other>,
    pub wanted: Wanted,
    pub names: u64,
}

// The open transaction of a script and its atom, or else those that begin next.
pub(crate) fn own_of(atoms: &Atoms, within: Option<Open>) -> Own
    requires begun { IfSome within (λ o. IsBegun atoms.now o.txn.0) }
    requires few { length atoms.now.txns < 4294967295 }
    ensures { result ≡ own_in atoms.now within }
{
    match within {
        Some(open) => Own {
            txn: open.txn,
            atom: atoms.atom(open.txn),
            begins: false,
        },
        None => {
            let next = atoms.begun() + 1;
            Own {
                txn: TxnNo(next),
                atom: AtomNo(next),
                begins: true,
            }
        }
    }
}

// All that a ready command of this tree goes out with. The only error is want of memory, or of
// numbers for new cells.
pub(crate) fn gather(
    alloc: Global,
    atoms: &Atoms,
    tree: Root,
    own: Own,
    draws: Draws,
    ready: Ready,
) -> Result<Gathered, Memory>
    requires { ready.need ≡ need_in ready.reach }
    ensures { IfOk result (IsGathered atoms.now tree own draws ready) }
{
    let Ready { reach, need } = ready;
    let Reach {
        reads,
        writes,
        met,
        seen,
        most,
        in_extents,
        in_leaves,
        ..
    } = reach;
    let writing = writes.as_slice().len() as u64;
    if !last_for(&draws.own.fresh, writing) || most > MOST_NEW {
        return Err(Memory);
    }
    let others = others(alloc, atoms, own.atom, need.reads(), need.writes())?;
    let cells = writing.checked_add(most).ok_or(AllocError)?;
    let pins = nodes_of(alloc, met.as_slice())?;
    let met = met.into_vec();
    let wanted = Wanted {
        entries: others.len() as u64 + 3,
        cells,
        met: met.len() as u64,
        claims: writing + 1,
    };
    let names = need.reads().len() as u64 + need.writes().len() as u64;
    let seen = Arc::new(alloc, seen)?;
    let lent = lent_of(alloc, &reads, &writes, &seen)?;
    let given = Given {
        txn: own.txn,
        reads,
        writes,
        pins: Nodes::from_vec(pins),
        seen,
        scope: Scope {
            root: tree,
            in_leaves,
            in_extents,
            most,
        },
        numbers: draws.own,
        cells,
        claims: writing + 1,
    };
    Ok(Gathered {
        given,
        lent,
        need,
        met,
        others,
        wanted,
        names,
    })
}

// Whether these are numbers of new cells, 64 for each of so many cells.
fn last_for(fresh: &Fresh, cells: u64) -> bool
    ensures { IsTrue result → (2 ^ 63 ≤ fresh.now.next)
        × (fresh.now.next + 64 * cells ≤ fresh.now.end) }
{
    match fresh.end.checked_sub(fresh.next) {
        Some(left) => fresh.next >= UNPLACED && cells <= left / 64,
        None => false,
    }
}

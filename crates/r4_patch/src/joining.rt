//! Two changes of one tree as one change (docs/volume.md, "Changes").

ghost use Rattle.std.specs.Prelude.{◌≡◌, ◌++◌, ◌↔◌, ℕ, map, IsTrue, Contains, IfOk, IfErr, OnOk, IfSome, IfNone};
ghost use Rattle.std.specs.List.Sorted.{IsPermutation, IsNonDecreasing};
ghost use Rattle.std.specs.Arc.{arc_value};
ghost use Rattle.r4_patch.specs.Joining.{ids_of, AreApart, IsFirstShared, IsJoined, IsJoinFault};

use r4_base::{Memory, NodeId};
use r4_cell::{Cell, Cells, Change};
use std::alloc::Global;
use std::sync::Arc;

/// Why two changes are not joined: `Meet` names a node of which both have an old cell, the one of the smallest number;
/// `Memory` is want of memory.
#[derive(Clone, Copy, Debug, PartialEq, Eq)]
pub enum JoinFault {
    Meet { node: NodeId },
    Memory,
}

impl From<Memory> for JoinFault {
    ghost use Rattle.std.specs.Prelude.{◌≡◌};
    ghost use Rattle.r4_patch.specs.declared.joining.JoinFault.TheVariants.{Memory as NoMemory};

    ghost from_gives = { λ _ fault. fault ≡ NoMemory };

    fn from(_none: Memory) -> JoinFault {
        JoinFault::Memory
    }
}

/// One change with the effects of both: the old cells of both, the new cells of both, and the second one's root where it
/// has one, else the first one's. Two changes that have an old cell of one node are not joined. What the effect on a tree
/// is, `joined_change` says. Cells are shared and no block is copied. It takes n log n steps for n old cells, and one for
/// each new cell.
pub fn join(alloc: Global, one: &Change, two: &Change) -> Result<Change, JoinFault>
    ensures joined { IfOk result (λ c. IsJoined one.now two.now c) }
    ensures apart { OnOk result (AreApart one.now.old two.now.old) }
    ensures meet { IfErr result (λ e. IsJoinFault one.now two.now e) }
{
    let ids = sorted_ids(alloc, &one.old)?;
    let others = sorted_ids(alloc, &two.old)?;
    if let Some(id) = first_shared(ids.as_slice(), others.as_slice()) {
        return Err(JoinFault::Meet { node: NodeId(id) });
    }
    let old = both(alloc, &one.old, &two.old)?;
    let new = both(alloc, &two.new, &one.new)?;
    Ok(Change {
        old,
        new,
        root: two.root.or(one.root),
    })
}

/// The names of the cells, rising.
pub(crate) fn sorted_ids(alloc: Global, cells: &Cells) -> Result<Vec<u64>, Memory>
    ensures moved { IfOk result (λ v. IsPermutation (ids_of cells.now) v.items) }
    ensures rising { IfOk result (λ v. IsNonDecreasing v.items) }
{
    let items = cells.as_slice();
    let mut ids = Vec::with_capacity(alloc, items.len())?;
    for cell in items {
        ids.push(cell.id().0)?;
    }
    ids.sort_unstable();
    Ok(ids)
}

/// The least number that is in both.
fn first_shared(ids: &[u64], others: &[u64]) -> Option<u64>
    requires rising { IsNonDecreasing ids.now }
    requires others { IsNonDecreasing others.now }
    ensures some { IfSome result (λ i. IsFirstShared ids.now others.now i) }
    ensures none { IfNone result ((i : ℕ) → Contains ids.now i → Contains others.now i → ⊥) }
{
    for id in ids {
        if is_among(others, *id) {
            return Some(*id);
        }
    }
    None
}

/// Whether a number is one of these.
pub(crate) fn is_among(ids: &[u64], id: u64) -> bool
    requires { IsNonDecreasing ids.now }
    ensures { IsTrue result ↔ Contains ids.now id }
{
    ids.binary_search(&id).is_ok()
}

/// The first cells and then the second ones.
fn both(alloc: Global, first: &Cells, second: &Cells) -> Result<Cells, Memory>
    ensures { IfOk result (λ cells. cells ≡ first.now ++ second.now) }
{
    let first = first.as_slice();
    let second = second.as_slice();
    let mut items = Vec::with_capacity(alloc, first.len() + second.len())?;
    share(&mut items, first)?;
    share(&mut items, second)?;
    Ok(Cells::from_vec(items))
}

/// Puts these cells behind the others, as further owners of them.
pub(crate) fn share(items: &mut Vec<Arc<Cell>>, cells: &[Arc<Cell>]) -> Result<(), Memory>
    ensures { OnOk result (map (λ cell. arc_value cell) items.new.items ≡ map (λ cell. arc_value cell) items.old.items ++ map (λ cell. arc_value cell) cells.now) }
{
    for cell in cells {
        items.push(Arc::try_clone(cell)?)?;
    }
    Ok(())
}

//! What becomes of a name.

ghost use Rattle.std.specs.Prelude.{◌≡◌, ◌^◌, ℕ, nat_eq, nat_le, map, IfOk};
ghost use Rattle.std.specs.List.{IsDistinct};
ghost use Rattle.r4_flush.specs.declared.cells.RenamedCell.{RenamedCell};
ghost use Rattle.r4_renaming.specs.Renaming.{name_then};
ghost use Rattle.r4_renaming.specs.Steps.{name_in};

use r4_base::{Memory, NodeId, UNPLACED};
use r4_flush::RenamedCell;
use std::alloc::Global;
use std::collections::BTreeMap;

/// The new name of each old one.
pub(crate) type Names = BTreeMap<u64, u64>;

/// The names of these cells.
pub(crate) fn read_names(alloc: Global, renamed: &[RenamedCell]) -> Result<Names, Memory>
    requires { IsDistinct nat_eq (map (λ (r : RenamedCell). r.was.0) renamed.now) }
    ensures { IfOk result (λ names. (i : ℕ) → name_in names i ≡ name_then renamed.now i) }
{
    let mut names = BTreeMap::new(alloc);
    for cell in renamed {
        names.insert(cell.was.0, cell.cell.id().0)?;
    }
    Ok(names)
}

/// What becomes of a name: it stays, where the table has no other.
pub(crate) fn new_name(names: &Names, name: u64) -> u64
    ensures { result ≡ name_in names.now name }
{
    match names.get(&name) {
        Some(new) => *new,
        None => name,
    }
}

/// Whether a node has no block yet.
pub(crate) fn is_unplaced(node: NodeId) -> bool
    ensures { result ≡ nat_le (2 ^ 63) node.0 }
{
    UNPLACED <= node.0
}

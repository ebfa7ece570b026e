//! How many bytes a leaf needs after a command (docs/volume.md, "Reach").

ghost use Rattle.std.specs.Prelude.{◌≡◌, ◌<◌, ◌≤◌, List, None, IfOk, IfSome};
ghost use Rattle.std.specs.Option.{option_map};
ghost use Rattle.r4_base.specs.Key.{rank};
ghost use Rattle.r4_base.specs.Tree.{Name};
ghost use Rattle.r4_cell.specs.Seen.{node_of};
ghost use Rattle.r4_content.specs.Held.{edits_of};
ghost use Rattle.r4_leaf.specs.Units.{leaf_bytes};
ghost use Rattle.r4_leaf_demands.specs.Leaves.{AreLeafEdits, leaf_change_asks};
ghost use Rattle.r4_marking.specs.Marks.{ask_seen};
ghost use Rattle.r4_marking.specs.r4_reach.Needs.{Ask, units_after};

use crate::weighing::{needing, over};
use r4_base::Memory;
use r4_cell::Cell;
use r4_content::Edits;
use r4_leaf::bytes_after;
use r4_marking::Asking;
use r4_suited::{edits_of_leaf, touches_leaf};
use std::alloc::Global;

/// What a leaf asks for: nothing where no key of its range is changed, and then it is not looked at.
pub(crate) fn leaf_asks(alloc: Global, edits: &Edits, cell: &Cell) -> Result<Option<Asking>, Memory>
    requires leaf { cell.now.level ≡ 1 }
    requires edits { AreLeafEdits (edits_of edits.now) }
    ensures asks { IfOk result (λ o. (hs : List (Name × Ask)) → option_map ask_seen o
        ≡ leaf_change_asks (edits_of edits.now) (node_of cell.now) hs) }
    ensures small { IfOk result (λ o. IfSome o (λ a. a.more ≤ 4096)) }
{
    if !touches_leaf(edits, &cell.lo(), &cell.hi()) {
        return Ok(None);
    }
    Ok(needing(over(needed(alloc, edits, cell)?)))
}

// How many bytes a leaf needs afterwards that has a changed key.
fn needed(alloc: Global, edits: &Edits, cell: &Cell) -> Result<u64, Memory>
    requires leaf { cell.now.level ≡ 1 }
    requires edits { AreLeafEdits (edits_of edits.now) }
    requires some { rank cell.now.lo ≤ rank cell.now.hi }
    ensures bytes { IfOk result (λ n. n
        ≡ leaf_bytes (units_after None (edits_of edits.now) (node_of cell.now))) }
    ensures small { IfOk result (λ n. n < 58912) }
{
    let made = edits_of_leaf(alloc, edits, None, &cell.lo(), &cell.hi())?;
    let items = made.items(alloc)?;
    let node = cell.node();
    let bytes = bytes_after(alloc, &node, cell.lo(), made.cuts(), items.as_slice())?;
    Ok(bytes)
}

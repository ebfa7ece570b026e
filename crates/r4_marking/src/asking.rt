//! What cells ask for, from the leaves up.

ghost use Rattle.std.specs.Prelude.{map, IfOk, OnOk};
ghost use Rattle.std.specs.Arc.{arc_value};
ghost use Rattle.r4_base.specs.Tree.{Root};
ghost use Rattle.r4_search.specs.r4_cell.Patch.{by_name};
ghost use Rattle.r4_search.specs.r4_cell.Seen.{node_of};
ghost use Rattle.r4_marking.specs.Marks.{AreAsks, HearsLittle, AreMet, IsNoted, asks_seen, most_for};

use crate::demands::{Asking, Demands};
use crate::hearing::heard_by;
use r4_base::Memory;
use r4_search::Cell;
use std::alloc::Global;
use std::collections::HashMap;
use std::sync::Arc;

/// What each of the cells asks for, by its number. They are a part of a tree, and stand by
/// level, the lowest first.
pub(crate) fn asked_up<D: Demands>(
    alloc: Global,
    demands: &D,
    met: &[Arc<Cell>],
) -> Result<HashMap<u64, Asking>, Memory>
    requires { (root : Root) × AreMet (map (λ c. arc_value c) met.now) root }
    ensures { IfOk result (λ m. AreAsks (D.demand demands.now)
        (by_name (map (λ c. arc_value c) met.now)) (map (λ c. arc_value c) met.now)
        (asks_seen m.entries)) }
{
    let mut asks = HashMap::new(alloc);
    for cell in met {
        note(alloc, demands, cell, &mut asks)?;
    }
    Ok(asks)
}

// What a cell asks for is put under its number.
fn note<D: Demands>(
    alloc: Global,
    demands: &D,
    cell: &Cell,
    asks: &mut HashMap<u64, Asking>,
) -> Result<(), Memory>
    requires { HearsLittle (asks_seen asks.old.entries) (most_for cell.now.level)
        (node_of cell.now).names }
    ensures { OnOk result (IsNoted (D.demand demands.now) cell.now (asks_seen asks.old.entries)
        (asks_seen asks.new.entries)) }
{
    if cell.level() == 0 {
        return Ok(());
    }
    let heard = heard_by(alloc, cell, asks)?;
    if let Some(ask) = demands.asks(alloc, cell, &heard)? {
        asks.insert(cell.id().0, ask)?;
    }
    Ok(())
}

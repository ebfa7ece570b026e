//! Which of the cells that were met are read and written.

ghost use Rattle.std.specs.Prelude.{◌≡◌, ◌↔◌, map, true, IfOk, OnOk, sum_by};
ghost use Rattle.std.specs.Arc.{arc_value};
ghost use Rattle.r4_search.specs.r4_cell.Patch.{by_name, root_of_pair};
ghost use Rattle.r4_reach.specs.Leaves.{more_in, more_of};
ghost use Rattle.r4_marking.specs.Marks.{AddsBeside, AreBeside, AreMarksOf, AreMet, IsWrittenBy, MarksOne, asks_seen};

use crate::asking::asked_up;
use crate::demands::{Asking, Demands};
use crate::hearing::heard_by;
use r4_base::Memory;
use r4_search::{Cell, Root};
use std::alloc::{AllocError, Global};
use std::collections::HashMap;
use std::sync::Arc;

/// The cells of those that were met which a change reads and which it writes, in the order in which
/// they are given; what the root asks for, where it asks for something; and for how many pointers
/// the cells ask in all that are written (docs/volume.md, "Reach").
#[derive(Drop)]
pub struct Marks {
    pub reads: Vec<Arc<Cell>>,
    pub writes: Vec<Arc<Cell>>,
    pub rises: Option<Asking>,
    pub more: u64,
}

/// Which of the cells that were met a change reads and writes. They are a part of a tree with this root, and stand by
/// level, the lowest first. Each is looked at twice, and no other one (docs/volume.md, "Reach"). The only error is want
/// of memory, also where 2^64 pointers or more are asked for.
pub fn mark<D: Demands>(
    alloc: Global,
    demands: &D,
    root: &Root,
    met: &[Arc<Cell>],
) -> Result<Marks, Memory>
    requires { AreMet (map (λ c. arc_value c) met.now) (root_of_pair root.now) }
    ensures marks { IfOk result (AreMarksOf (D.demand demands.now) (map (λ c. arc_value c) met.now)
        (root_of_pair root.now)) }
    ensures more { IfOk result (λ m. m.more ≡ more_in (D.demand demands.now)
        (by_name (map (λ c. arc_value c) met.now)) (map (λ c. arc_value c) m.writes.items)) }
{
    let asks = asked_up(alloc, demands, met)?;
    let beside = beside_of(alloc, demands, met)?;
    let mut marks = Marks {
        reads: Vec::new(alloc),
        writes: Vec::new(alloc),
        rises: asks.get(&root.id.0).copied(),
        more: 0,
    };
    for cell in met {
        mark_cell(alloc, demands, cell, &asks, &beside, &mut marks)?;
    }
    let more = all_more(&marks.writes, &asks)?;
    Ok(Marks { more, ..marks })
}

// For how many pointers these cells ask in all.
fn all_more(cells: &[Arc<Cell>], asks: &HashMap<u64, Asking>) -> Result<u64, Memory>
    ensures { IfOk result (λ n. n ≡ sum_by (λ c. more_of (asks_seen asks.now.entries c.id))
        (map (λ c. arc_value c) cells.now)) }
{
    match cells.split_first() {
        None => Ok(0),
        Some((first, rest)) => {
            let more = asks.get(&first.id().0).map_or(0, |ask| ask.more);
            let others = all_more(rest, asks)?;
            Ok(more.checked_add(others).ok_or(AllocError)?)
        }
    }
}

// A cell that is written or read is put behind the others that are.
fn mark_cell<D: Demands>(
    alloc: Global,
    demands: &D,
    cell: &Arc<Cell>,
    asks: &HashMap<u64, Asking>,
    beside: &[u64],
    marks: &mut Marks,
) -> Result<(), Memory>
    ensures { OnOk result (MarksOne (D.demand demands.now) (asks_seen asks.now.entries) beside.now
        (arc_value cell.now) marks.old marks.new) }
{
    if is_written(alloc, demands, cell, asks, beside)? {
        marks.writes.push(Arc::try_clone(cell)?)?;
    } else if demands.reads_at(cell) {
        marks.reads.push(Arc::try_clone(cell)?)?;
    }
    Ok(())
}

// Whether a cell is written: by its keys, as a twig that turns, beside one, or since it is asked for something.
#[tactic(auto, using(crate::proofs::Children::data_silent))]
fn is_written<D: Demands>(
    alloc: Global,
    demands: &D,
    cell: &Cell,
    asks: &HashMap<u64, Asking>,
    beside: &[u64],
) -> Result<bool, Memory>
    ensures { IfOk result (λ b. (b ≡ true) ↔ IsWrittenBy (D.demand demands.now) cell.now
        (asks_seen asks.now.entries) beside.now) }
{
    if demands.changes_at(cell) || demands.turns(cell) || beside.contains(&cell.id().0) {
        return Ok(true);
    }
    if cell.level() == 0 {
        return Ok(false);
    }
    Ok(!heard_by(alloc, cell, asks)?.is_empty())
}

// The numbers of the leaves beside the twigs that turn.
fn beside_of<D: Demands>(alloc: Global, demands: &D, met: &[Arc<Cell>]) -> Result<Vec<u64>, Memory>
    ensures { IfOk result (λ v. AreBeside (D.demand demands.now)
        (map (λ c. arc_value c) met.now) v.items) }
{
    let mut beside = Vec::new(alloc);
    for cell in met {
        add_beside(alloc, demands, cell, &mut beside)?;
    }
    Ok(beside)
}

// The numbers of the leaves beside a cell that turns are put behind the others.
fn add_beside<D: Demands>(
    alloc: Global,
    demands: &D,
    cell: &Cell,
    beside: &mut Vec<u64>,
) -> Result<(), Memory>
    ensures { OnOk result (AddsBeside (D.demand demands.now) cell.now beside.old.items
        beside.new.items) }
{
    if demands.turns(cell) {
        let mut more = demands.beside(alloc, cell)?;
        beside.append(&mut more)?;
    }
    Ok(())
}

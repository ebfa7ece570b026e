//! The leaves beside twigs that turn (docs/volume.md, "Reach").

ghost use Rattle.std.specs.Prelude.{◌≡◌, ◌⊎◌, ◌≤◌, ℕ, Contains, IfErr, OnOk, map, true};
ghost use Rattle.std.specs.Arc.{arc_value};
ghost use Rattle.r4_base.specs.Key.{rank};
ghost use Rattle.r4_extent_commands.specs.r4_cell.Seen.{CellSeen};
ghost use Rattle.r4_content.specs.Held.{edits_of, interval_of};
ghost use Rattle.r4_extent_asks.specs.r4_search.Keeping.{keeping_state};
ghost use Rattle.r4_extent_asks.specs.r4_search.Pool.{Goes, KnowsNames, LeavesDevice};
ghost use Rattle.r4_extent_asks.specs.r4_search.declared.pool.FetchFault.TheVariants.{Memory as NoMemory};
ghost use Rattle.r4_extent_asks.specs.r4_extent_demands.Sizes.{AreExtentEdits};
ghost use Rattle.r4_extent_reaching.specs.r4_extent_touching.Holding.{AreLeftMet, StopsLeft};
ghost use Rattle.r4_extent_reach.specs.Meeting.{AreBesideMet, CanMeet, GoesOn, MeetsBeside};
ghost use Rattle.r4_extent_reach.specs.Meeting.{MeetsBesideOne, StopsAtLeft, StopsBesideOf, turns_of};

use crate::known::Known;
use r4_base::Key;
use r4_content::Interval;
use r4_extent_asks::{Demands, ExtentDemands, FetchFault, Keeping, Pool, first_gone};
use r4_extent_reaching::{Cell, Root, in_order, touch_left};
use std::alloc::Global;
use std::sync::Arc;

/// Meets the leaves beside the twigs that were met and turn, where blocks go: they take up the range of these.
pub(crate) fn meet_beside<P: Pool>(
    alloc: Global,
    pool: &mut Keeping<P>,
    root: &Root,
    known: &Known,
    changes: &[Interval],
) -> Result<(), FetchFault>
    requires meet { CanMeet (keeping_state (P.state pool.old.pool) pool.old.all
        pool.old.met.entries) root.now }
    requires edits { AreExtentEdits known.now.body (edits_of known.now.edits) }
    ensures on { GoesOn (P.device pool.old.pool) (P.device pool.new.pool) root.now
        (keeping_state (P.state pool.old.pool) pool.old.all pool.old.met.entries)
        (keeping_state (P.state pool.new.pool) pool.new.all pool.new.met.entries) }
    ensures beside { OnOk result (AreBesideMet known.now.body (edits_of known.now.edits)
        (map interval_of changes.now)
        (keeping_state (P.state pool.new.pool) pool.new.all pool.new.met.entries)) }
    ensures err { IfErr result (λ e. (e ≡ NoMemory)
        ⊎ StopsAtLeft known.now.body (edits_of known.now.edits) (map interval_of changes.now)
        (keeping_state (P.state pool.old.pool) pool.old.all pool.old.met.entries) e
        (keeping_state (P.state pool.new.pool) pool.new.all pool.new.met.entries)) }
{
    let _ = root;
    let body = known.body.as_ref();
    let Some(at) = first_gone(body) else {
        return Ok(());
    };
    let met = in_order(alloc, pool.met())?;
    let demands = ExtentDemands::new(body, &known.edits, &[], changes);
    meet_beside_each(alloc, pool, &demands, met.as_slice(), &at)
}

// Meets the leaves that end at a key and that those of the cells name which turn.
fn meet_beside_each<P: Pool>(
    alloc: Global,
    pool: &mut P,
    demands: &ExtentDemands<'_>,
    cells: &[Arc<Cell>],
    at: &Key,
) -> Result<(), FetchFault>
    requires keeps { (level : ℕ) → (P.state pool.old).keeps level ≡ true }
    requires knows { (c : CellSeen) → Contains (map (λ c. arc_value c) cells.now) c
        → KnowsNames (P.state pool.old) c }
    ensures goes { Goes (P.state pool.old) (P.state pool.new) }
    ensures device { LeavesDevice (P.device pool.old) (P.device pool.new) }
    ensures only { MeetsBeside (turns_of demands.now) (map (λ c. arc_value c) cells.now)
        (P.state pool.old) (P.state pool.new) }
    ensures met { OnOk result ((c : CellSeen) → Contains (map (λ c. arc_value c) cells.now) c
        → turns_of demands.now c ≡ true → AreLeftMet (P.state pool.new) c (rank at.now)) }
    ensures err { IfErr result (λ e. StopsBesideOf (turns_of demands.now)
        (map (λ c. arc_value c) cells.now) (rank at.now) (P.state pool.old) e
        (P.state pool.new)) }
{
    for cell in cells {
        meet_beside_one(alloc, pool, demands, cell, at)?;
    }
    Ok(())
}

// The same of one cell.
fn meet_beside_one<P: Pool>(
    alloc: Global,
    pool: &mut P,
    demands: &ExtentDemands<'_>,
    cell: &Cell,
    at: &Key,
) -> Result<(), FetchFault>
    requires keeps { (level : ℕ) → (P.state pool.old).keeps level ≡ true }
    requires knows { KnowsNames (P.state pool.old) cell.now }
    ensures goes { Goes (P.state pool.old) (P.state pool.new) }
    ensures device { LeavesDevice (P.device pool.old) (P.device pool.new) }
    ensures only { MeetsBesideOne (turns_of demands.now) cell.now (P.state pool.old)
        (P.state pool.new) }
    ensures met { OnOk result (turns_of demands.now cell.now ≡ true
        → AreLeftMet (P.state pool.new) cell.now (rank at.now)) }
    ensures err { IfErr result (λ e. (turns_of demands.now cell.now ≡ true)
        × StopsLeft cell.now (rank at.now) (P.state pool.old) e (P.state pool.new)) }
{
    if !demands.turns(cell) {
        return Ok(());
    }
    touch_left(alloc, pool, cell, at)
}

//! All cells that were met, as a part of a tree.

ghost use Rattle.std.specs.Prelude.{◌≤◌, MatchResult, map};
ghost use Rattle.std.specs.Arc.{arc_value};
ghost use Rattle.r4_search.specs.Keeping.{keeping_state};
ghost use Rattle.r4_touching.specs.r4_seeing.Looking.{AreHung};
ghost use Rattle.r4_reaching.specs.Gathering.{IsOneMet, IsPartMet, IsRefusedFor};

use crate::gathering::in_order;
use r4_cell::{Cell, Root};
use r4_judging::judge;
use r4_search::{FetchFault, Keeping, Pool};
use std::alloc::Global;
use std::sync::Arc;

/// All cells that a pool has met, which hang together with the root, in order, as a part of a tree. Refused as by
/// `judge` is the first of them that another one names with another level or range; else `Memory` alone comes
/// (docs/volume.md, "Reach").
pub fn part_met<P: Pool>(
    alloc: Global,
    root: &Root,
    pool: &Keeping<P>,
) -> Result<Vec<Arc<Cell>>, FetchFault>
    requires hung { AreHung (keeping_state (P.state pool.now.pool) pool.now.all
        pool.now.met.entries) root.now }
    requires height { 2 ≤ root.now.height }
    requires some { IsOneMet (keeping_state (P.state pool.now.pool) pool.now.all
        pool.now.met.entries) }
    ensures { MatchResult result
        (λ v. IsPartMet (keeping_state (P.state pool.now.pool) pool.now.all pool.now.met.entries)
        root.now (map (λ c. arc_value c) v.items))
        (λ e. IsRefusedFor (keeping_state (P.state pool.now.pool) pool.now.all
        pool.now.met.entries) e) }
{
    let cells = in_order(alloc, pool.met())?;
    judge(alloc, root, cells.as_slice())?;
    Ok(cells)
}

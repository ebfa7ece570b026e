//! The cells that are met for a command's changes (docs/volume.md, "Reach").

ghost use Rattle.std.specs.Prelude.{◌≡◌, ◌≤◌, ◌<◌, ◌+◌, ◌∷◌, [], ℕ, IfErr, OnOk, map, true};
ghost use Rattle.r4_base.specs.Key.{least, top};
ghost use Rattle.r4_extent_asks.specs.r4_bodies.Told.{intervals_of};
ghost use Rattle.r4_content.specs.Edited.{is_in};
ghost use Rattle.r4_content.specs.Held.{edits_of, interval_of};
ghost use Rattle.r4_extent_asks.specs.r4_extent_demands.Sizes.{AreExtentEdits};
ghost use Rattle.r4_extent_reaching.specs.r4_touching.r4_reach.Touched.{kind_reads};
ghost use Rattle.r4_extent_reaching.specs.r4_reaching.Gathering.{IsOneMet};
ghost use Rattle.r4_extent_asks.specs.r4_search.Keeping.{keeping_state};
ghost use Rattle.r4_extent_reaching.specs.r4_touching.Touching.{StopsFor};
ghost use Rattle.r4_extent_reach.specs.Meeting.{CanMeet, GoesOn, HasMet, StopsMeeting};

use crate::beside::meet_beside;
use crate::keys::keys_to_touch;
use crate::known::Known;
use r4_content::Interval;
use r4_extent_asks::{FetchFault, Keeping, Pool};
use r4_extent_reaching::{Root, key_after, least, touch_all};
use std::alloc::Global;

/// Meets the cells that hold the keys which change and the one that tells where the body stands, then the leaves beside
/// twigs that turn. Where no key is met, those on the way to the least key are: each reach has the root among the cells
/// that were met.
pub(crate) fn meet_all<P: Pool>(
    alloc: Global,
    pool: &mut Keeping<P>,
    root: &Root,
    known: &Known,
    changes: &[Interval],
) -> Result<(), FetchFault>
    requires meet { CanMeet (keeping_state (P.state pool.old.pool) pool.old.all
        pool.old.met.entries) root.now }
    requires edits { AreExtentEdits known.now.body (edits_of known.now.edits) }
    requires read { intervals_of known.now.read ≡ kind_reads known.now.body }
    ensures on { GoesOn (P.device pool.old.pool) (P.device pool.new.pool) root.now
        (keeping_state (P.state pool.old.pool) pool.old.all pool.old.met.entries)
        (keeping_state (P.state pool.new.pool) pool.new.all pool.new.met.entries) }
    ensures met { OnOk result (HasMet known.now.body (edits_of known.now.edits)
        (map interval_of changes.now)
        (keeping_state (P.state pool.new.pool) pool.new.all pool.new.met.entries)) }
    ensures err { IfErr result (λ e. StopsMeeting known.now.body (edits_of known.now.edits)
        (map interval_of changes.now)
        (keeping_state (P.state pool.old.pool) pool.old.all pool.old.met.entries) e
        (keeping_state (P.state pool.new.pool) pool.new.all pool.new.met.entries)) }
{
    let keys = keys_to_touch(alloc, known.read, changes)?;
    meet_some(alloc, pool, root)?;
    touch_all(alloc, pool, root, keys.as_slice())?;
    meet_beside(alloc, pool, root, known, changes)
}

// Where nothing was met yet, the cells on the way to the least key are.
fn meet_some<P: Pool>(alloc: Global, pool: &mut Keeping<P>, root: &Root) -> Result<(), FetchFault>
    requires meet { CanMeet (keeping_state (P.state pool.old.pool) pool.old.all
        pool.old.met.entries) root.now }
    ensures on { GoesOn (P.device pool.old.pool) (P.device pool.new.pool) root.now
        (keeping_state (P.state pool.old.pool) pool.old.all pool.old.met.entries)
        (keeping_state (P.state pool.new.pool) pool.new.all pool.new.met.entries) }
    ensures some { OnOk result (IsOneMet (keeping_state (P.state pool.new.pool) pool.new.all
        pool.new.met.entries)) }
    ensures err { IfErr result (λ e. StopsFor (is_in ((least, least + 1) ∷ []))
        (keeping_state (P.state pool.old.pool) pool.old.all pool.old.met.entries) e
        (keeping_state (P.state pool.new.pool) pool.new.all pool.new.met.entries)) }
{
    if !pool.met().is_empty() {
        return Ok(());
    }
    let first = Interval {
        from: least(),
        to: key_after(least(), 1),
    };
    touch_all(alloc, pool, root, &[first])
}

//! The reach of a command whose keys lie in leaves.

ghost use Rattle.std.specs.Prelude.{◌≡◌, ◌≤◌, ◌<◌, ◌∷◌, [], ◌||◌, ◌+◌, ℕ, IfErr, IfOk, List, MatchOption};
ghost use Rattle.std.specs.Prelude.{MatchResult, OnOk, map, true};
ghost use Rattle.r4_base.specs.Key.{least, top};
ghost use Rattle.r4_bodies.specs.Told.{intervals_of};
ghost use Rattle.r4_content.specs.Edited.{Intervals, changed, is_in};
ghost use Rattle.r4_content.specs.Fields.{HasBytePaths};
ghost use Rattle.r4_content.specs.declared.command.Command.{Command as CommandSeen};
ghost use Rattle.r4_content.specs.Held.{edits_of, interval_of};
ghost use Rattle.r4_touching.specs.r4_gather.Asking.{StaysOver};
ghost use Rattle.r4_touching.specs.r4_gather.Finding.{asked_keys};
ghost use Rattle.r4_touching.specs.r4_leaf_edits.Suiting.{SuitLeaves};
ghost use Rattle.r4_search.specs.Keeping.{Shared, keeping_state};
ghost use Rattle.r4_search.specs.Path.{root_name};
ghost use Rattle.r4_search.specs.Pool.{IsKnown, KeepsNone};
ghost use Rattle.r4_touching.specs.r4_seeing.Looking.{AreHung};
ghost use Rattle.r4_touching.specs.Changed.{AddsKeys};
ghost use Rattle.r4_touching.specs.Touching.{StopsFor, Touches};
ghost use Rattle.r4_reaching.specs.Answers.{IsAllSeen, IsPlanned, IsReach, IsSamePool, IsTouched};
ghost use Rattle.r4_reaching.specs.Answers.{StopsJudging, StopsReach, StopsWriting, TouchesExtent};
ghost use Rattle.r4_reaching.specs.Gathering.{IsOneMet};

use crate::answer::reach_from;
use crate::objects::sees_low_object;
use crate::parting::part_met;
use crate::reached::Reach;
use r4_base::{BlockNo, CellFault, Memory};
use r4_bodies::{LeafDemands, told_by_body};
use r4_cell::{Root, least};
use r4_content::{Command, Edits, Interval, Seen};
use r4_judging::{key_after, mark};
use r4_search::{FetchFault, Keeping, Pool};
use r4_spared::{commands_change_lawful_keys, plan};
use r4_touching::{Asked, Seeing, changed_keys, keys_asked, see_for, touch};
use std::alloc::Global;

/// What a command reads and writes of the tree of a pool, where all keys that it changes lie in leaves: the pool as it
/// is then, and the reach. There is none where the body that the command changes stands in extents afterwards, or where
/// one of these keys lies in an extent, or the last byte of a body that becomes longer: what such a command reads and
/// writes is not told here.
///
/// What the command asks for is seen first, in its order; then the cells are met that hold the keys
/// which it changes, and the cells on the way to the least key where no other one was met. No cell
/// is read twice, and no byte of a body is looked at that it does not ask for. `Read` and `Damaged`
/// name the block with which that ended; `Damaged` comes also for the first cell that was met and
/// that another one names with another level or range (docs/volume.md, "Reach").
pub fn reach_in_leaves<P: Pool>(
    alloc: Global,
    pool: P,
    root: &Root,
    command: &Command,
) -> (P, Result<Option<Reach>, FetchFault>)
    requires height { 2 ≤ root.now.height }
    requires raw { KeepsNone (P.state pool) }
    requires known { IsKnown (P.state pool) (root_name root.now) }
    requires paths { HasBytePaths command.now }
    ensures { (met : List (ℕ × Shared)) × IsSamePool (P.device pool) (P.device result.0)
        (P.state pool) (P.state result.0) root.now met
        × MatchResult result.1
        (λ found. MatchOption found
        (TouchesExtent (keeping_state (P.state result.0) true met) command.now)
        (IsReach (keeping_state (P.state result.0) true met) root.now command.now))
        (StopsReach (keeping_state (P.state result.0) true met) root.now command.now) }
{
    let mut sight = Seeing::new(alloc, Keeping::all(alloc, pool), *root);
    let saw = see_for(alloc, &mut sight, command);
    sight.lawful();
    let (mut pool, seen, asked) = sight.into_parts();
    let found = match saw {
        Ok(()) => reach_of_seen(alloc, &mut pool, root, command, seen, &asked),
        Err(fault) => Err(fault),
    };
    (pool.into_pool(), found)
}

// The same, once all was seen that the command asks for.
fn reach_of_seen<P: Pool>(
    alloc: Global,
    pool: &mut Keeping<P>,
    root: &Root,
    command: &Command,
    seen: Seen,
    asked: &[Asked],
) -> Result<Option<Reach>, FetchFault>
    requires seen { (known : Intervals) × IsAllSeen (keeping_state (P.state pool.old.pool)
        pool.old.all pool.old.met.entries) root.now command.now seen known
        (map asked_keys asked.now) }
    requires paths { HasBytePaths command.now }
    ensures stays { StaysOver (P.device pool.old.pool) (P.device pool.new.pool)
        (record {
          root = root.now;
          pool = keeping_state (P.state pool.old.pool)
              pool.old.all pool.old.met.entries;
        })
        (record {
          root = root.now;
          pool = keeping_state (P.state pool.new.pool)
              pool.new.all pool.new.met.entries;
        }) }
    ensures reach { MatchResult result
        (λ found. MatchOption found
        (TouchesExtent (keeping_state (P.state pool.new.pool) pool.new.all
        pool.new.met.entries) command.now)
        (IsReach (keeping_state (P.state pool.new.pool) pool.new.all pool.new.met.entries)
        root.now command.now))
        (StopsWriting (keeping_state (P.state pool.new.pool) pool.new.all pool.new.met.entries)
        root.now command.now) }
{
    if sees_low_object(seen.parts.as_slice()) {
        return Err(FetchFault::Damaged {
            block: BlockNo(root.id.0),
            fault: CellFault::Range { item: 0 },
        });
    }
    commands_change_lawful_keys();
    let edits = plan(alloc, command, &seen)?;
    let told = told_by_body(&edits, &seen);
    if !told.in_leaves {
        return Ok(None);
    }
    reach_of_edits(alloc, pool, root, command, seen, asked, &edits, told.read)
}

// The same, once the edits are known, which are of leaves where no byte of the body stands in extents: `read` tells
// whether one does.
fn reach_of_edits<P: Pool>(
    alloc: Global,
    pool: &mut Keeping<P>,
    root: &Root,
    command: &Command,
    seen: Seen,
    asked: &[Asked],
    edits: &Edits,
    read: Option<Interval>,
) -> Result<Option<Reach>, FetchFault>
    requires { (known : Intervals) × IsPlanned (keeping_state (P.state pool.old.pool)
        pool.old.all pool.old.met.entries) root.now command.now seen known
        (map asked_keys asked.now) edits.now read }
    ensures stays { StaysOver (P.device pool.old.pool) (P.device pool.new.pool)
        (record {
          root = root.now;
          pool = keeping_state (P.state pool.old.pool)
              pool.old.all pool.old.met.entries;
        })
        (record {
          root = root.now;
          pool = keeping_state (P.state pool.new.pool)
              pool.new.all pool.new.met.entries;
        }) }
    ensures reach { MatchResult result
        (λ found. MatchOption found
        (TouchesExtent (keeping_state (P.state pool.new.pool) pool.new.all
        pool.new.met.entries) command.now)
        (IsReach (keeping_state (P.state pool.new.pool) pool.new.all pool.new.met.entries)
        root.now command.now))
        (StopsWriting (keeping_state (P.state pool.new.pool) pool.new.all pool.new.met.entries)
        root.now command.now) }
{
    let keys = keys_to_touch(alloc, edits, read)?;
    meet_some(alloc, pool, root)?;
    if touch(alloc, pool, root, &keys)? {
        let reach = reach_of_met(alloc, pool, root, seen, asked, edits, read)?;
        return Ok(Some(reach));
    }
    Ok(None)
}

// The reach, once all cells were met. Nothing more is read.
fn reach_of_met<P: Pool>(
    alloc: Global,
    pool: &Keeping<P>,
    root: &Root,
    seen: Seen,
    asked: &[Asked],
    edits: &Edits,
    read: Option<Interval>,
) -> Result<Reach, FetchFault>
    requires { (command : CommandSeen) × (known : Intervals)
        × IsTouched (keeping_state (P.state pool.now.pool) pool.now.all pool.now.met.entries)
        root.now command seen known (map asked_keys asked.now) edits.now read }
    ensures ok { IfOk result (λ reach. (command : CommandSeen) (known : Intervals)
        → IsTouched (keeping_state (P.state pool.now.pool) pool.now.all pool.now.met.entries)
        root.now command seen known (map asked_keys asked.now) edits.now read
        → IsReach (keeping_state (P.state pool.now.pool) pool.now.all pool.now.met.entries)
        root.now command reach) }
    ensures err { IfErr result (StopsJudging (keeping_state (P.state pool.now.pool)
        pool.now.all pool.now.met.entries)) }
{
    let met = part_met(alloc, root, pool)?;
    let mut reads = keys_asked(alloc, asked)?;
    add_read(&mut reads, read)?;
    let marks = mark(alloc, &LeafDemands::new(edits, &reads), root, &met)?;
    Ok(reach_from(root, seen, met, marks)?)
}

// Where nothing was met yet, the cells on the way to the least key are: each reach has the root among the cells that
// were met.
fn meet_some<P: Pool>(alloc: Global, pool: &mut Keeping<P>, root: &Root) -> Result<(), FetchFault>
    requires height { 1 ≤ root.now.height }
    requires known { IsKnown (keeping_state (P.state pool.old.pool) pool.old.all
        pool.old.met.entries) (root_name root.now) }
    requires keeps { (level : ℕ) → (keeping_state (P.state pool.old.pool) pool.old.all
        pool.old.met.entries).keeps level ≡ true }
    ensures stays { StaysOver (P.device pool.old.pool) (P.device pool.new.pool)
        (record {
          root = root.now;
          pool = keeping_state (P.state pool.old.pool)
              pool.old.all pool.old.met.entries;
        })
        (record {
          root = root.now;
          pool = keeping_state (P.state pool.new.pool)
              pool.new.all pool.new.met.entries;
        }) }
    ensures touches { Touches root.now (is_in ((least, least + 1) ∷ []))
        (keeping_state (P.state pool.old.pool) pool.old.all pool.old.met.entries)
        (keeping_state (P.state pool.new.pool) pool.new.all pool.new.met.entries) }
    ensures some { OnOk result (IsOneMet (keeping_state (P.state pool.new.pool) pool.new.all
        pool.new.met.entries)) }
    ensures err { IfErr result (λ e. StopsFor (is_in ((least, least + 1) ∷ []))
        (keeping_state (P.state pool.old.pool) pool.old.all pool.old.met.entries) e
        (keeping_state (P.state pool.new.pool) pool.new.all pool.new.met.entries)) }
{
    if !pool.met().is_empty() {
        return Ok(());
    }
    let first = Interval {
        from: least(),
        to: key_after(least(), 1),
    };
    touch(alloc, pool, root, &[first])?;
    Ok(())
}

// The keys that have to lie in leaves: that which tells where the body stands, and those that change.
fn keys_to_touch(
    alloc: Global,
    edits: &Edits,
    read: Option<Interval>,
) -> Result<Vec<Interval>, Memory>
    requires { SuitLeaves 16384 (edits_of edits.now) }
    ensures { IfOk result (λ v. (k : ℕ) → least ≤ k → k < top
        → is_in (map interval_of v.items) k
        ≡ (is_in (intervals_of read) k || is_in (changed (edits_of edits.now)) k)) }
{
    let mut keys = Vec::new(alloc);
    add_read(&mut keys, read)?;
    let mut changed = changed_keys(alloc, edits)?;
    keys.append(&mut changed)?;
    Ok(keys)
}

// A key that is read comes behind the others.
fn add_read(keys: &mut Vec<Interval>, read: Option<Interval>) -> Result<(), Memory>
    ensures { OnOk result (AddsKeys keys.old.items (intervals_of read) keys.new.items) }
{
    if let Some(read) = read {
        keys.push(read)?;
    }
    Ok(())
}

//! What a command reads and writes of the cells of a tree, wherever the body that it changes stands.

ghost use Rattle.std.specs.Prelude.{◌≡◌, ◌≤◌, ℕ, IfErr, IfOk, List, MatchResult, map, true};
ghost use Rattle.r4_base.specs.declared.items.CellFault.TheVariants.{Range};
ghost use Rattle.r4_content.specs.Edited.{Intervals};
ghost use Rattle.r4_content.specs.Fields.{HasBytePaths};
ghost use Rattle.r4_content.specs.Held.{interval_of};
ghost use Rattle.r4_content.specs.declared.command.Command.{Command as CommandSeen};
ghost use Rattle.r4_extent_reaching.specs.r4_touching.r4_gather.Asking.{StaysOver};
ghost use Rattle.r4_extent_reaching.specs.r4_touching.r4_gather.Finding.{asked_keys};
ghost use Rattle.r4_extent_reaching.specs.r4_touching.r4_reach.Touched.{kind_reads};
ghost use Rattle.r4_extent_reaching.specs.r4_reaching.Answers.{IsAllSeen, IsSamePool, StopsJudging};
ghost use Rattle.r4_extent_asks.specs.r4_search.Keeping.{Shared, keeping_state};
ghost use Rattle.r4_extent_asks.specs.r4_search.Path.{root_name};
ghost use Rattle.r4_extent_asks.specs.r4_search.Pool.{IsKnown, KeepsNone};
ghost use Rattle.r4_extent_asks.specs.r4_search.declared.pool.FetchFault.TheVariants.{Damaged};
ghost use Rattle.r4_extent_asks.specs.r4_bodies.Told.{intervals_of};
ghost use Rattle.r4_extent_reaching.specs.Answers.{IsReach, StopsReach, StopsWriting};
ghost use Rattle.r4_extent_reach.specs.Known.{HasBody, HasEdits, IsMetFor};
ghost use Rattle.r4_extent_reach.specs.Meeting.{GoesOn};

use crate::answer::reach_from;
use crate::keys::add_read;
use crate::known::Known;
use crate::meeting::meet_all;
use crate::objects::sees_low_object;
use crate::standing::{is_too_long, kind_read, standing_body};
use r4_base::{BlockNo, CellFault};
use r4_content::{Command, Edits, Interval, Seen};
use r4_extent_asks::{
    ExtentDemands, FetchFault, Keeping, Pool, body_changed, changes_of,
    commands_of_extents_may_ask, mark,
};
use r4_extent_commands::{bodies_keep_file_sizes, edits_lie_in_one_body};
use r4_extent_reaching::{
    Asked, Reach, Root, Seeing, commands_change_lawful_keys, keys_asked, part_met, plan, see_for,
};
use std::alloc::Global;

/// What a command reads and writes of the tree of a pool, wherever the body that it changes stands: the pool as it is
/// then, and the reach.
///
/// What the command asks for is seen first, in its order; then where the body stands that it changes; then the cells are
/// met that hold the keys which change, and where blocks go the leaves directly left of them. Where no key is met the
/// cells on the way to the least one are. No cell is read twice, and no byte of a body is looked at that the command
/// does not ask for; the only step for a block is where one is met, comes or goes.
///
/// `Read` and `Damaged` name the block with which that ended. `Damaged` comes also for the root's block, where an object
/// was seen with a number below 42 or a file whose body changes with more than 2^30 bytes; and for the first cell that
/// was met and that another one names with another level or range. `Memory` comes where there was not enough, and where
/// 2^64 new cells or more may come (docs/volume.md, "Reach").
pub fn reach<P: Pool>(
    alloc: Global,
    pool: P,
    root: &Root,
    command: &Command,
) -> (P, Result<Reach, FetchFault>)
    requires height { 2 ≤ root.now.height }
    requires raw { KeepsNone (P.state pool) }
    requires known { IsKnown (P.state pool) (root_name root.now) }
    requires paths { HasBytePaths command.now }
    ensures { (met : List (ℕ × Shared)) × IsSamePool (P.device pool) (P.device result.0)
        (P.state pool) (P.state result.0) root.now met
        × MatchResult result.1
        (IsReach (keeping_state (P.state result.0) true met) root.now command.now)
        (StopsReach (keeping_state (P.state result.0) true met) root.now command.now) }
{
    let mut sight = Seeing::new(alloc, Keeping::all(alloc, pool), *root);
    let saw = see_for(alloc, &mut sight, command);
    sight.lawful();
    let (mut pool, seen, asked) = sight.into_parts();
    let found = match saw {
        Ok(()) => reach_of_seen(alloc, &mut pool, root, command, seen, &asked),
        Err(fault) => Err(fault),
    };
    (pool.into_pool(), found)
}

// The same, once all was seen that the command asks for.
fn reach_of_seen<P: Pool>(
    alloc: Global,
    pool: &mut Keeping<P>,
    root: &Root,
    command: &Command,
    seen: Seen,
    asked: &[Asked],
) -> Result<Reach, FetchFault>
    requires seen { (known : Intervals) × IsAllSeen (keeping_state (P.state pool.old.pool)
        pool.old.all pool.old.met.entries) root.now command.now seen known
        (map asked_keys asked.now) }
    requires paths { HasBytePaths command.now }
    ensures stays { StaysOver (P.device pool.old.pool) (P.device pool.new.pool)
        (record {
          root = root.now;
          pool = keeping_state (P.state pool.old.pool)
              pool.old.all pool.old.met.entries;
        })
        (record {
          root = root.now;
          pool = keeping_state (P.state pool.new.pool)
              pool.new.all pool.new.met.entries;
        }) }
    ensures reach { MatchResult result
        (IsReach (keeping_state (P.state pool.new.pool) pool.new.all pool.new.met.entries)
        root.now command.now)
        (StopsWriting (keeping_state (P.state pool.new.pool) pool.new.all pool.new.met.entries)
        root.now command.now) }
{
    if sees_low_object(seen.parts.as_slice()) {
        return Err(no_volume(root));
    }
    commands_change_lawful_keys();
    bodies_keep_file_sizes();
    edits_lie_in_one_body();
    commands_of_extents_may_ask();
    let edits = plan(alloc, command, &seen)?;
    reach_of_edits(alloc, pool, root, command, seen, asked, edits)
}

// The fault of a tree that has what no volume has.
fn no_volume(root: &Root) -> FetchFault
    ensures { result ≡ Damaged (record { 0 = root.now.id.0 }) (Range 0) }
{
    FetchFault::Damaged {
        block: BlockNo(root.id.0),
        fault: CellFault::Range { item: 0 },
    }
}

// The same, once the edits are known.
fn reach_of_edits<P: Pool>(
    alloc: Global,
    pool: &mut Keeping<P>,
    root: &Root,
    command: &Command,
    seen: Seen,
    asked: &[Asked],
    edits: Edits,
) -> Result<Reach, FetchFault>
    requires { (known : Intervals) × HasEdits (keeping_state (P.state pool.old.pool)
        pool.old.all pool.old.met.entries) root.now command.now seen known
        (map asked_keys asked.now) edits }
    ensures on { GoesOn (P.device pool.old.pool) (P.device pool.new.pool) root.now
        (keeping_state (P.state pool.old.pool) pool.old.all pool.old.met.entries)
        (keeping_state (P.state pool.new.pool) pool.new.all pool.new.met.entries) }
    ensures reach { MatchResult result
        (IsReach (keeping_state (P.state pool.new.pool) pool.new.all pool.new.met.entries)
        root.now command.now)
        (StopsWriting (keeping_state (P.state pool.new.pool) pool.new.all pool.new.met.entries)
        root.now command.now) }
{
    let change = body_changed(&edits, &seen);
    if is_too_long(change.as_ref()) {
        return Err(no_volume(root));
    }
    let body = standing_body(alloc, pool, root, change.as_ref())?;
    let read = kind_read(change.as_ref());
    let known = Known { edits, body, read };
    reach_of_known(alloc, pool, root, command, seen, asked, &known)
}

// The same, once the body that changes is known, with where it stood.
fn reach_of_known<P: Pool>(
    alloc: Global,
    pool: &mut Keeping<P>,
    root: &Root,
    command: &Command,
    seen: Seen,
    asked: &[Asked],
    known: &Known,
) -> Result<Reach, FetchFault>
    requires body { (held : Intervals) × HasBody (keeping_state (P.state pool.old.pool)
        pool.old.all pool.old.met.entries) root.now command.now seen held
        (map asked_keys asked.now) known.now.edits known.now.body }
    requires read { intervals_of known.now.read ≡ kind_reads known.now.body }
    ensures on { GoesOn (P.device pool.old.pool) (P.device pool.new.pool) root.now
        (keeping_state (P.state pool.old.pool) pool.old.all pool.old.met.entries)
        (keeping_state (P.state pool.new.pool) pool.new.all pool.new.met.entries) }
    ensures reach { MatchResult result
        (IsReach (keeping_state (P.state pool.new.pool) pool.new.all pool.new.met.entries)
        root.now command.now)
        (StopsWriting (keeping_state (P.state pool.new.pool) pool.new.all pool.new.met.entries)
        root.now command.now) }
{
    let changes = changes_of(alloc, &known.edits, known.body.as_ref())?;
    meet_all(alloc, pool, root, known, changes.as_slice())?;
    let reach = reach_of_met(alloc, pool, root, seen, asked, known, changes.as_slice())?;
    Ok(reach)
}

// The reach, once all cells were met. Nothing more is read.
fn reach_of_met<P: Pool>(
    alloc: Global,
    pool: &Keeping<P>,
    root: &Root,
    seen: Seen,
    asked: &[Asked],
    known: &Known,
    changes: &[Interval],
) -> Result<Reach, FetchFault>
    requires met { (command : CommandSeen) × (held : Intervals)
        × IsMetFor (keeping_state (P.state pool.now.pool) pool.now.all pool.now.met.entries)
        root.now command seen held (map asked_keys asked.now) known.now.edits known.now.body
        (map interval_of changes.now) }
    requires read { intervals_of known.now.read ≡ kind_reads known.now.body }
    ensures ok { IfOk result (λ reach. (command : CommandSeen) (held : Intervals)
        → IsMetFor (keeping_state (P.state pool.now.pool) pool.now.all pool.now.met.entries)
        root.now command seen held (map asked_keys asked.now) known.now.edits known.now.body
        (map interval_of changes.now)
        → IsReach (keeping_state (P.state pool.now.pool) pool.now.all pool.now.met.entries)
        root.now command reach) }
    ensures err { IfErr result (StopsJudging (keeping_state (P.state pool.now.pool)
        pool.now.all pool.now.met.entries)) }
{
    let met = part_met(alloc, root, pool)?;
    let mut reads = keys_asked(alloc, asked)?;
    add_read(&mut reads, known.read)?;
    let demands = ExtentDemands::new(known.body.as_ref(), &known.edits, &reads, changes);
    let marks = mark(alloc, &demands, root, &met)?;
    Ok(reach_from(alloc, root, seen, known, changes, met, marks)?)
}

//! What becomes of a command.

ghost use Rattle.std.specs.Prelude.{◌≡◌, IfOk, MatchResult};
ghost use Rattle.r4_content.specs.Fields.{HasBytePaths};
ghost use Rattle.r4_search.specs.Pool.{LeavesDevice};
ghost use Rattle.r4_search.specs.declared.pool.FetchFault.TheVariants.{Memory as NoMemory};
ghost use Rattle.r4_serve.specs.Serving.{Asks, CanAsk, IsAnswerTo, IsDecided, IsReplyTo};
ghost use Rattle.r4_serve.specs.Serving.{IsWeighed, Reaches, parts_seen};

use crate::asked::{Asked, Ready};
use crate::need::{NodesNeeded, sealed_owner};
use crate::parts::Parts;
use crate::stray::stray_block;
use r4_base::{MOST_LEVELS, Memory};
use r4_buffer::Reading;
use r4_content::{Command, Reply};
use r4_extent_reach::{Reach, reach};
use r4_outside::Device;
use r4_search::FetchFault;
use std::alloc::Global;

/// What becomes of a command, the first of these that holds: it is refused, since what it reads
/// ended at a block, or has a block that no cell of a volume has; it waits for a sealed atom that
/// owns a cell of its reach; it waits for a task that holds one in a mode that conflicts; the tree
/// would have to grow, and is as high as it may be; else it may be worked at. Its reach is that in
/// the tree of all atoms, as the cells in memory and the device have it. The device is read, no
/// block of it twice, and nothing else changes. The only error is want of memory (docs/core.md,
/// "Asking").
pub fn ask<D: Device>(
    alloc: Global,
    dev: &mut D,
    parts: &Parts<'_>,
    command: &Command,
) -> Result<Asked, Memory>
    requires can { CanAsk (D.state dev.old) (parts_seen parts.now) }
    requires paths { HasBytePaths command.now }
    ensures device { LeavesDevice (D.state dev.old) (D.state dev.new) }
    ensures asks { IfOk result (Asks (D.state dev.old) (D.state dev.new)
        (parts_seen parts.now) command.now) }
{
    let (back, asked) = ask_over(alloc, dev, parts, command);
    // What came back is named here, so that it is known to be the device.
    let _ = back.clock();
    asked
}

// The same, over a device that goes back.
fn ask_over<E: Device>(
    alloc: Global,
    dev: E,
    parts: &Parts<'_>,
    command: &Command,
) -> (E, Result<Asked, Memory>)
    requires can { CanAsk (E.state dev) (parts_seen parts.now) }
    requires paths { HasBytePaths command.now }
    ensures device { LeavesDevice (E.state dev) (E.state result.0) }
    ensures asks { IfOk result.1 (Asks (E.state dev) (E.state result.0)
        (parts_seen parts.now) command.now) }
{
    let (dev, found) = reach_over(alloc, dev, parts, command);
    let asked = answer_to(alloc, parts, found);
    (dev, asked)
}

// What the command reaches in the tree of the cells in memory and the device.
fn reach_over<E: Device>(
    alloc: Global,
    dev: E,
    parts: &Parts<'_>,
    command: &Command,
) -> (E, Result<Reach, FetchFault>)
    requires can { CanAsk (E.state dev) (parts_seen parts.now) }
    requires paths { HasBytePaths command.now }
    ensures { Reaches (E.state dev) (E.state result.0) (parts_seen parts.now) command.now
        result.1 }
{
    let pool = Reading::new(dev, parts.buffer, parts.root, parts.blocks);
    let (pool, found) = reach(alloc, pool, &parts.root, command);
    (pool.into_device(), found)
}

// The answer where this was found of a command.
fn answer_to(
    alloc: Global,
    parts: &Parts<'_>,
    found: Result<Reach, FetchFault>,
) -> Result<Asked, Memory>
    ensures { IfOk result (IsAnswerTo (parts_seen parts.now) found) }
{
    match found {
        Ok(reach) => decide(alloc, parts, reach),
        Err(fault) => Ok(Asked::Refused {
            reply: reply_to(fault)?,
        }),
    }
}

// The reply where what a command reads ended so; none where it was want of memory.
fn reply_to(fault: FetchFault) -> Result<Reply, Memory>
    ensures { MatchResult result (IsReplyTo fault) (λ e. fault ≡ NoMemory) }
{
    match fault {
        FetchFault::Read { block, faults } => Ok(Reply::Readfault { block, faults }),
        FetchFault::Damaged { block, fault: _ } => Ok(Reply::Damaged { block }),
        FetchFault::Memory => Err(Memory),
    }
}

// What becomes of a command with this reach. On a damaged image it may have met a block that no
// cell of a volume has.
fn decide(alloc: Global, parts: &Parts<'_>, reach: Reach) -> Result<Asked, Memory>
    ensures { IfOk result (IsDecided (parts_seen parts.now) reach) }
{
    match stray_block(parts, reach.met.as_slice()) {
        Some(block) => Ok(Asked::Refused {
            reply: Reply::Damaged { block },
        }),
        None => weigh(alloc, parts, reach),
    }
}

// What becomes of a command with this reach, where no such block was met.
fn weigh(alloc: Global, parts: &Parts<'_>, reach: Reach) -> Result<Asked, Memory>
    ensures { IfOk result (IsWeighed (parts_seen parts.now) reach) }
{
    let need = NodesNeeded::of(alloc, &reach)?;
    if let Some(atom) = sealed_owner(parts.atoms, need.reads()) {
        return Ok(Asked::Sealed { atom });
    }
    if let Some(atom) = sealed_owner(parts.atoms, need.writes()) {
        return Ok(Asked::Sealed { atom });
    }
    if let Some((node, holder)) = parts.locks.conflict(need.reads(), need.writes()) {
        return Ok(Asked::Busy { node, holder });
    }
    let height = parts.root.height;
    if reach.root.is_some() && height >= MOST_LEVELS {
        return Ok(Asked::Tall { height });
    }
    Ok(Asked::Ready {
        ready: Ready { reach, need },
    })
}

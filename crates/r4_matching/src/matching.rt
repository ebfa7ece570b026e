//! Whether a task is the one that is out.

ghost use Rattle.std.specs.Prelude.{◌↔◌, IsOk, IsTrue, MatchOption, MatchResult};
ghost use Rattle.r4_matching.specs.Matching.{DifferFirst, HasKeptCells, IsMismatch, IsSameTask};
ghost use Rattle.r4_matching.specs.Matching.{IsTaskOut};

use crate::cells::Differs;
use crate::lists::{Lists, are_same};
use crate::seen::is_same_seen;
use r4_base::{NodeId, ScriptNo};
use r4_build::Task;
use r4_content::Command;
use r4_turns::Out;

/// Why a task is not answered (docs/core.md, "Matching").
#[derive(Clone, Copy, Debug, PartialEq, Eq)]
pub enum Mismatch {
    /// It is not out: it has another number, script, place in the script, transaction or command,
    /// or other numbers for new nodes, or another scope, or something else was seen for it. Or its cells stand in
    /// another order than those that were kept for it, or one of them twice.
    Gone,
    /// It is out, and this is the smallest node whose cell is not the one that was kept for it,
    /// with how it differs: of the cells that it writes, and where all of these are as they were
    /// kept, of those that it reads.
    Stale { node: NodeId, differs: Differs },
}

/// Whether a task is the one that is out at the turn of a script, whose command stands at place
/// `index` of it. No memory is taken (docs/core.md, "Matching").
pub fn match_task(
    out: &Out,
    script: ScriptNo,
    index: u32,
    command: &Command,
    task: &Task,
) -> Result<(), Mismatch>
    ensures answer { MatchResult result
        (λ _. IsSameTask out.now script index command.now task.now)
        (IsMismatch out.now script index command.now task.now) }
    ensures same { IsSameTask out.now script index command.now task.now → IsOk result }
{
    if !is_out(out, script, index, command, task) {
        return Err(Mismatch::Gone);
    }
    if are_same(&task.writes, &out.writes) && are_same(&task.reads, &out.reads) {
        return Ok(());
    }
    match first_difference(out, task) {
        Some((node, differs)) => Err(Mismatch::Stale { node, differs }),
        None => Err(Mismatch::Gone),
    }
}

// Whether it is the task that is out, but for its cells.
fn is_out(out: &Out, script: ScriptNo, index: u32, command: &Command, task: &Task) -> bool
    ensures { IsTrue result ↔ IsTaskOut out.now script index command.now task.now }
{
    task.id == out.task
        && task.txn == out.txn
        && task.script == script
        && task.index == index
        && task.fresh == out.numbers.fresh
        && task.scope == out.scope
        && task.command.is_job(command, out.numbers.oid)
        && is_same_seen(&task.seen, &out.seen)
}

// The smallest node whose cell is not the kept one, of those that are written before those that are
// read, and how it differs.
fn first_difference(out: &Out, task: &Task) -> Option<(NodeId, Differs)>
    ensures { MatchOption result
        (HasKeptCells out.now task.now)
        (λ d. DifferFirst out.now task.now d.0.0 d.1) }
{
    let writes = Lists {
        had: &task.writes,
        has: &out.writes,
    };
    let reads = Lists {
        had: &task.reads,
        has: &out.reads,
    };
    match writes.first_difference() {
        Some(found) => Some(found),
        None => reads.first_difference(),
    }
}

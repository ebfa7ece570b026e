//! Commands that come at the end of a script while a job runs.

ghost use Rattle.std.specs.Prelude.{◌≡◌, ◌⊎◌, ◌<◌, IfOk, IsTrue, length};
ghost use Rattle.r4_content.specs.declared.command.Command.TheVariants as asks;
ghost use Rattle.r4_script.specs.Spelling.{AreScripts};
ghost use Rattle.r4_trace.specs.Job.{HasNoBegin, IsWork};
ghost use Rattle.r4_turns.specs.Turns.{IsScript, commands_at};

use crate::running::{Way, run};
use crate::telling::Log;
use r4_apply::Core;
use r4_base::ScriptNo;
use r4_content::Command;
use r4_outside::{MemoryDevice, Unnamed};
use r4_script::{Job, parse};
use r4_turns::Turns;
use std::alloc::Global;
use std::test::Fail;

/// The commands of these scripts come one after another, and after each of them all is done.
///
/// # Errors
/// As with `push_all` and `run`.
pub fn run_pushed(
    core: &mut Core<MemoryDevice, Unnamed>,
    alloc: Global,
    pushed: &str,
    way: Way,
    log: &mut Log,
) -> Result<(), Fail> {
    let job = job_of(alloc, pushed)?;
    let mut number = 0u32;
    for script in job.scripts.as_slice() {
        number = number.saturating_add(1);
        for command in script.commands.as_slice() {
            push(core, alloc, ScriptNo(number), command)?;
            run(core, alloc, way, log)?;
        }
    }
    Ok(())
}

/// The commands of these scripts come, and nothing is done.
///
/// # Errors
/// Where there is no memory, the scripts are refused, the core has no such script, one that has a
/// `begin` or `u32::MAX` commands, or the command is `begin` or `end`.
pub fn push_all(
    core: &mut Core<MemoryDevice, Unnamed>,
    alloc: Global,
    pushed: &str,
) -> Result<(), Fail> {
    let job = job_of(alloc, pushed)?;
    let mut number = 0u32;
    for script in job.scripts.as_slice() {
        number = number.saturating_add(1);
        for command in script.commands.as_slice() {
            push(core, alloc, ScriptNo(number), command)?;
        }
    }
    Ok(())
}

// The job of a text.
pub(crate) fn job_of(alloc: Global, text: &str) -> Result<Job, Fail>
    ensures { IfOk result (λ job. AreScripts job.scripts) }
{
    match parse(alloc, text.as_bytes()) {
        Ok(job) => Ok(job),
        Err(_) => Err(Fail::from("the scripts are refused")),
    }
}

// A command comes at the end of a script.
fn push(
    core: &mut Core<MemoryDevice, Unnamed>,
    alloc: Global,
    script: ScriptNo,
    command: &Command,
) -> Result<(), Fail> {
    if !is_plain(core.turns(), script) || !may_come(command) {
        return Err(Fail::from("no such command may come there"));
    }
    core.push(alloc, script, command.copy(alloc)?)?;
    Ok(())
}

// Whether there is such a script, it has no `begin`, and it has few commands.
fn is_plain(turns: &Turns, script: ScriptNo) -> bool
    ensures script { IsTrue result → IsScript turns.now script.0 }
    ensures few { IsTrue result → length (commands_at turns.now script.0) < 4294967295 }
    ensures plain { IsTrue result → HasNoBegin (commands_at turns.now script.0) }
{
    if script.0 == 0 || script.0 > turns.count() {
        return false;
    }
    let commands = turns.job().scripts.as_slice()[script.0 as usize - 1]
        .commands
        .as_slice();
    commands.len() < u32::MAX as usize && has_no_begin(commands)
}

// Whether none of these is `begin`.
fn has_no_begin(commands: &[Command]) -> bool
    ensures { IsTrue result → HasNoBegin commands.now }
{
    match commands {
        [] => true,
        [Command::Begin, ..] => false,
        [_, rest @ ..] => has_no_begin(rest),
    }
}

// Whether a command may come later: it is work, or `commit`.
fn may_come(command: &Command) -> bool
    ensures { IsTrue result → IsWork command.now ⊎ (command.now ≡ asks.Commit) }
{
    !matches!(command, Command::Begin | Command::End)
}

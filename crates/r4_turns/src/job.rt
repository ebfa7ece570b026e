//! A job that grows.

ghost use Rattle.std.specs.Prelude.{◌≡◌, ◌<◌, ◌∷◌, ◌++◌, [], length, slice_index_or, OnOk, OnErr, IsTrue, ℕ};
ghost use Rattle.r4_turns.specs.Turns.{no_script, with_last};

use r4_base::Memory;
use r4_content::Command;
use r4_script::{Commands, Job, Script, Scripts};
use std::alloc::Global;
use std::mem;

// Adds a command at the end of the script at i, counted from 0.
pub(crate) fn add_command(
    job: &mut Job,
    alloc: Global,
    i: usize,
    command: Command,
) -> Result<(), Memory>
    requires { i < length job.old.scripts }
    ensures ok { OnOk result (job.new.scripts ≡ with_last job.old.scripts i command) }
    ensures err { OnErr result (job.new ≡ job.old) }
{
    let mut scripts = mem::replace(&mut job.scripts, Scripts::from_vec(Vec::new(alloc))).into_vec();
    let added = add(&mut scripts[i], alloc, command);
    job.scripts = Scripts::from_vec(scripts);
    added
}

// Adds a command at the end of a script.
fn add(script: &mut Script, alloc: Global, command: Command) -> Result<(), Memory>
    ensures ok { OnOk result
        (script.new ≡ record { commands = script.old.commands ++ command ∷ [] }) }
    ensures err { OnErr result (script.new ≡ script.old) }
{
    let mut commands = mem::replace(
        &mut script.commands,
        Commands::from_vec(Vec::new(alloc)),
    ).into_vec();
    let added = commands.push(command);
    script.commands = Commands::from_vec(commands);
    match added {
        Ok(()) => Ok(()),
        Err(_failed) => Err(Memory),
    }
}

// Whether the scripts of a job, and the commands of each, are fewer than 2^32.
pub(crate) fn is_small(job: &Job) -> bool
    ensures few { IsTrue result → length job.now.scripts < 4294967296 }
    ensures small { IsTrue result → (i : ℕ) →
        length (slice_index_or job.now.scripts i no_script).commands < 4294967296 }
{
    let scripts = job.scripts.as_slice();
    for script in scripts {
        if script.commands.as_slice().len() > u32::MAX as usize {
            return false;
        }
    }
    scripts.len() <= u32::MAX as usize
}

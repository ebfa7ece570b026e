//! The scripts of the workload.

ghost use Rattle.std.specs.Prelude.{◌≡◌, ◌≤◌, ◌<◌, ◌++◌, IfOk, Ok};
ghost use Rattle.r4_script.specs.Spelling.{AreScripts, job_text};
ghost use Rattle.r4_script.specs.Text.{job_of};
ghost use Rattle.r4_gen.specs.Workload.{commit_behind, directory_made, directory_thinned};
ghost use Rattle.r4_gen.specs.Workload.{each_directory, script_of, workload_of};

use crate::files::{FILES, make_file, path_of_directory, path_of_file};
use r4_base::{Memory, Oid};
use r4_content::Command;
use r4_script::{Commands, Job, Script, Scripts};
use std::alloc::Global;

/// How many scripts there are.
const SCRIPTS: u64 = 4;
/// How many directories each script has.
const DIRECTORIES: u64 = 50;
/// So many directories stand between two commits.
const COMMITTED: u64 = 5;

/// The scripts of the generated workload of a seed, which may be any number (docs/scripts.md, "The
/// generated workload"). No object is drawn yet, as in a job that `parse` of `r4_script` reads. `Memory`
/// comes where there is not enough for the job.
///
/// The job keeps the rules: its commands keep their limits, and its transactions are in order. It is one
/// that a text spells: its own text, line by line, has fewer than 16 MiB, and is read as this job.
pub fn workload(alloc: Global, seed: u64) -> Result<Job, Memory>
    ensures job { IfOk result (λ job. job ≡ workload_of seed) }
    ensures lawful { IfOk result (λ job. AreScripts job.scripts) }
    ensures spelled { IfOk result (λ job. job_of (job_text job) ≡ Ok job) }
{
    all_scripts(alloc, seed)
}

// All scripts.
fn all_scripts(alloc: Global, seed: u64) -> Result<Job, Memory>
    ensures { IfOk result (λ job. job ≡ workload_of seed) }
{
    let mut scripts = Vec::new(alloc);
    for k in 0..SCRIPTS {
        scripts.push(script(alloc, seed, k + 1)?)?;
    }
    let scripts = Scripts::from_vec(scripts);
    Ok(Job { scripts })
}

// One script, counted from 1.
fn script(alloc: Global, seed: u64, number: u64) -> Result<Script, Memory>
    requires first { 1 ≤ number }
    requires last { number ≤ 4 }
    ensures { IfOk result (λ s. s ≡ script_of seed number) }
{
    let mut commands = Vec::new(alloc);
    make_directories(alloc, &mut commands, seed, number)?;
    thin_directories(alloc, &mut commands, number)?;
    let commands = Commands::from_vec(commands);
    Ok(Script { commands })
}

// Adds what makes the directories of a script.
fn make_directories(
    alloc: Global,
    commands: &mut Vec<Command>,
    seed: u64,
    number: u64,
) -> Result<(), Memory>
    requires first { 1 ≤ number }
    requires last { number ≤ 4 }
    ensures { IfOk result (λ _. commands.new.items
        ≡ commands.old.items ++ each_directory (directory_made seed) number) }
{
    for k in 0..DIRECTORIES {
        make_directory(alloc, commands, seed, SCRIPTS * k + (number - 1))?;
        commit(commands, k + 1)?;
    }
    Ok(())
}

// Adds what removes files from the directories of a script.
fn thin_directories(alloc: Global, commands: &mut Vec<Command>, number: u64) -> Result<(), Memory>
    requires first { 1 ≤ number }
    requires last { number ≤ 4 }
    ensures { IfOk result (λ _. commands.new.items ≡ commands.old.items ++ each_directory directory_thinned number) }
{
    for k in 0..DIRECTORIES {
        thin_directory(alloc, commands, SCRIPTS * k + (number - 1))?;
        commit(commands, k + 1)?;
    }
    Ok(())
}

// Adds a commit behind every fifth directory.
fn commit(commands: &mut Vec<Command>, count: u64) -> Result<(), Memory>
    ensures { IfOk result (λ _. commands.new.items ≡ commands.old.items ++ commit_behind count) }
{
    if count % COMMITTED == 0 {
        commands.push(Command::Commit)?;
    }
    Ok(())
}

// Adds what makes a directory and its files.
fn make_directory(
    alloc: Global,
    commands: &mut Vec<Command>,
    seed: u64,
    directory: u64,
) -> Result<(), Memory>
    requires { directory < 200 }
    ensures { IfOk result (λ _. commands.new.items ≡ commands.old.items ++ directory_made seed directory) }
{
    let path = path_of_directory(alloc, directory)?;
    commands.push(Command::Mkdir { path, oid: Oid(0) })?;
    for k in 0..FILES {
        make_file(alloc, commands, seed, FILES * directory + k)?;
    }
    Ok(())
}

// Adds what removes the files with even numbers from a directory.
fn thin_directory(alloc: Global, commands: &mut Vec<Command>, directory: u64) -> Result<(), Memory>
    requires { directory < 200 }
    ensures { IfOk result (λ _. commands.new.items ≡ commands.old.items ++ directory_thinned directory) }
{
    for k in 0..FILES {
        let file = FILES * directory + k;
        if file % 2 == 0 {
            let path = path_of_file(alloc, file)?;
            commands.push(Command::Unlink { path })?;
        }
    }
    Ok(())
}

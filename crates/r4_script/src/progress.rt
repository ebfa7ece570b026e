//! What was read of a text so far, and what a line adds.

ghost use Rattle.std.specs.Prelude.{◌≡◌, ◌≤◌, ◌≢◌, length, IfOk};
ghost use Rattle.r4_script.specs.Field.{Gives};
ghost use Rattle.r4_script.specs.Progress.{nothing, all_scripts, script_line, turn, command_line, line_read};

use crate::command::command;
use crate::fault::{Stop, What};
use crate::field::{ends, fault_at};
use crate::job::{Commands, Script};
use crate::split::until;
use crate::word::{Verb, read_verb};
use r4_base::Memory;
use r4_content::Command;
use std::alloc::Global;
use std::marker::Model;

/// The most scripts of a job.
const SCRIPTS: usize = 64;

/// The scripts that are finished, the commands of the one that is read, and whether a transaction is open in it.
#[derive(Drop)]
pub struct Progress {
    scripts: Vec<Script>,
    current: Option<Vec<Command>>,
    inside: bool,
}

impl Model for Progress {
    ghost use Rattle.std.specs.Prelude.{option_map};
    ghost use Rattle.r4_script.specs.Progress.{Read};

    ghost Value = { Read };

    ghost view = { λ p. record { scripts = p.scripts.items; current = option_map (λ v. v.items) p.current; inside = p.inside } };
}

impl Progress {
    /// Nothing is read.
    pub fn new(alloc: Global) -> Progress
        ensures { result ≡ nothing }
    {
        Progress {
            scripts: Vec::new(alloc),
            current: None,
            inside: false,
        }
    }

    /// The scripts, the one that is read too.
    pub fn into_scripts(self) -> Result<Vec<Script>, Memory>
        ensures { IfOk result (λ v. v.items ≡ all_scripts self) }
    {
        let mut scripts = self.scripts;
        if let Some(commands) = self.current {
            let commands = Commands::from_vec(commands);
            scripts.push(Script { commands })?;
        }
        Ok(scripts)
    }

    /// Reads a line, without its newline.
    #[tactic(auto, unfolding(crate::specs::Progress::line_read))]
    pub fn line(self, alloc: Global, line: &[u8]) -> Result<Progress, Stop>
        requires { length line.now ≤ 16777216 }
        ensures { Gives (λ p. p) result (line_read self line.now) }
    {
        if let [] | [b'#', ..] = line {
            return Ok(self);
        }
        let word = until(line, b' ');
        let place = word.len() + 1;
        match read_verb(word) {
            None => Err(fault_at(0, What::Command)),
            Some(Verb::Script) => self.script(alloc, line, place),
            Some(verb) => self.command(alloc, verb, line, place),
        }
    }

    // The next script begins.
    #[tactic(auto, unfolding(crate::specs::Progress::script_line))]
    fn script(self, alloc: Global, line: &[u8], place: usize) -> Result<Progress, Stop>
        requires { length line.now ≤ 16777216 }
        ensures { Gives (λ p. p) result (script_line self line.now place) }
    {
        let scripts = self.into_scripts()?;
        if scripts.len() >= SCRIPTS {
            return Err(fault_at(0, What::Scripts));
        }
        ends(line, place)?;
        Ok(Progress {
            scripts,
            current: Some(Vec::new(alloc)),
            inside: false,
        })
    }

    // A command of the script.
    #[tactic(auto, unfolding(crate::specs::Progress::command_line))]
    fn command(self, alloc: Global, verb: Verb, line: &[u8], place: usize) -> Result<Progress, Stop>
        requires { length line.now ≤ 16777216 }
        ensures { Gives (λ p. p) result (command_line self verb line.now place) }
    {
        let Progress {
            scripts,
            current,
            inside,
        } = self;
        let Some(mut commands) = current else {
            return Err(fault_at(0, What::Command));
        };
        let inside = after(verb, inside)?;
        commands.push(command(alloc, verb, line, place)?)?;
        Ok(Progress {
            scripts,
            current: Some(commands),
            inside,
        })
    }
}

// Whether a transaction is open behind a command.
fn after(verb: Verb, inside: bool) -> Result<bool, Stop>
    ensures { Gives (λ b. b) result (turn verb inside) }
{
    match verb {
        Verb::Begin if inside => Err(fault_at(0, What::Nested)),
        Verb::Begin => Ok(true),
        Verb::End if inside => Ok(false),
        Verb::End => Err(fault_at(0, What::Unopened)),
        Verb::Commit if inside => Err(fault_at(0, What::Open)),
        _ => Ok(inside),
    }
}

//! The job that a text spells.

ghost use Rattle.std.specs.Prelude.{◌≡◌, ◌+◌, ◌≤◌, ◌<◌, length, IfOk};
ghost use Rattle.r4_script.specs.Field.{Gives};
ghost use Rattle.r4_script.specs.Progress.{nothing};
ghost use Rattle.r4_script.specs.Spelling.{AreScripts};
ghost use Rattle.r4_script.specs.Split.{split};
ghost use Rattle.r4_script.specs.Text.{last_read, lines_read, text_read, named, job_of, Answers};

use crate::fault::{ParseFault, ScriptFault, Stop, What};
use crate::field::fault_at;
use crate::job::{Job, Scripts};
use crate::progress::Progress;
use crate::split::until;
use r4_base::Memory;
use std::alloc::Global;

/// The longest text, in bytes.
const LIMIT: usize = 16777216;

/// The job that the text spells: its scripts with their commands, in which no object is drawn yet. Where it spells none, the
/// first place at which it does not (docs/scripts.md). The text is read once, and of it only the names and the texts that
/// the job keeps are copied. `Memory` comes where there is not enough for the job.
///
/// The job keeps the rules: it has at most 64 scripts, and in each of them the commands keep their limits and the transactions
/// are in order.
#[tactic(auto, using(crate::proofs::Keeps::answer_keeps))]
pub fn parse(alloc: Global, text: &[u8]) -> Result<Job, ParseFault>
    ensures exact { Answers result (job_of text.now) }
    ensures lawful { IfOk result (λ job. AreScripts job.scripts) }
{
    read_job(alloc, text)
}

// Reads the job.
#[tactic(auto, unfolding(crate::specs::Text::job_of))]
fn read_job(alloc: Global, text: &[u8]) -> Result<Job, ParseFault>
    ensures { Answers result (job_of text.now) }
{
    let progress = read_text(alloc, text, LIMIT)?;
    let scripts = Scripts::from_vec(progress.into_scripts()?);
    Ok(Job { scripts })
}

// Reads a text up to its limit.
fn read_text(alloc: Global, text: &[u8], limit: usize) -> Result<Progress, ParseFault>
    requires { limit ≤ 16777216 }
    ensures { Answers result (text_read limit text.now) }
{
    if text.len() > limit {
        return read_lines(alloc, &text[..limit], true);
    }
    read_lines(alloc, text, false)
}

// Reads all lines.
fn read_lines(alloc: Global, text: &[u8], long: bool) -> Result<Progress, ParseFault>
    requires { length text.now ≤ 16777216 }
    ensures { Answers result (lines_read long 1 nothing (split 10 text.now)) }
{
    let mut progress = Progress::new(alloc);
    let mut number = 1;
    let mut place = 0;
    'lines: loop {
        let line = until(&text[place..], b'\n');
        let end = place + line.len();
        if end == text.len() {
            return at_line(number, last_line(alloc, progress, line, long));
        }
        progress = at_line(number, progress.line(alloc, line))?;
        number += 1;
        place = end + 1;
    }
}

// Reads the last line, which is cut off where the text is too long.
fn last_line(alloc: Global, progress: Progress, line: &[u8], long: bool) -> Result<Progress, Stop>
    requires { length line.now ≤ 16777216 }
    ensures { Gives (λ p. p) result (last_read long progress line.now) }
{
    let read = progress.line(alloc, line);
    if !long {
        return read;
    }
    match read {
        Err(Stop::Memory) => Err(Stop::Memory),
        Err(Stop::Spot(spot)) if spot.column as usize <= line.len() => Err(Stop::Spot(spot)),
        _ => Err(fault_at(line.len(), What::Long)),
    }
}

// Names the line of a fault.
fn at_line(line: u32, read: Result<Progress, Stop>) -> Result<Progress, ParseFault>
    ensures { result ≡ named line read }
{
    match read {
        Ok(progress) => Ok(progress),
        Err(Stop::Memory) => Err(ParseFault::Memory),
        Err(Stop::Spot(spot)) => Err(ParseFault::Script(ScriptFault {
            line,
            column: spot.column,
            what: spot.what,
        })),
    }
}

impl From<Memory> for ParseFault {
    ghost use Rattle.std.specs.Prelude.{◌≡◌};
    ghost use Rattle.r4_script.specs.declared.fault.ParseFault.TheVariants.{Memory as NoMemory};

    ghost from_gives = { λ _ e. e ≡ NoMemory };

    fn from(_none: Memory) -> ParseFault {
        ParseFault::Memory
    }
}

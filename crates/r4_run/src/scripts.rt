//! The scripts of a source are run.

ghost use Rattle.std.specs.Prelude.{◌≡◌, Ok};
ghost use Rattle.std.specs.Option.{option_map};
ghost use Rattle.r4_outside.specs.Device.{Goes};
ghost use Rattle.r4_run.specs.Naming.{Begins};
ghost use Rattle.r4_run.specs.Scripts.{Runs, TellsFault, TellsUnread, script_word};
ghost use Rattle.r4_run.specs.Stopping.{RunsBy};
ghost use Rattle.r4_script.specs.Spelling.{AreScripts};
ghost use Rattle.r4_script.specs.Text.{job_of};
ghost use Rattle.r4_shared.specs.r4_history.Tables.{asked};
ghost use Rattle.r4_trace.specs.Text.{trace_text};
ghost use Rattle.r4_words.specs.Options.{asked_stop};

use crate::ending::tell_memory;
use crate::running::{Ended, run_job};
use crate::showing::Shown;
use crate::spelling::Spelling;
use r4_lines::{write_script, write_source};
use r4_outside::{Device, Gate, Named, NamedNew, Run, Sink, Source};
use r4_script::{Job, ParseFault, ScriptFault, What, parse};
use r4_source::{ReadFault, read_text};
use r4_words::StopWords;
use std::alloc::Global;
use std::sync::Wait;
use std::thread::Threads;

/// Runs the scripts of a source on the volume of a device, by so many threads, and prints the trace:
/// the command `run`. The text is read whole before the device is called. Where a stop is asked for, the
/// run is that of a device over this one which stops so. The answer is the status (docs/program.md,
/// "Running" and "Lines and statuses").
pub fn run_scripts<D: Device, S: Source, K: Sink, G: Gate, R: Run, X: Threads + Wait + Sync>(
    rt: &X,
    alloc: Global,
    threads: u32,
    stop: Option<StopWords>,
    dev: &mut D,
    script: &mut S,
    out: &mut K,
    gate: &G,
    run: R,
) -> u8
    requires begins { Begins R.start R.clock (D.state dev.old) }
    ensures goes { Goes (D.state dev.old) (D.state dev.new) }
    ensures runs { Runs (option_map asked_stop stop) R.start R.clock (S.state script.old) (S.state script.new)
        (D.state dev.old) (K.state out.old) result (D.state dev.new) (K.state out.new) }
{
    let text = match read_text(alloc, script) {
        Ok(text) => text,
        Err(fault) => return tell_unread(out, fault),
    };
    let job = match parse(alloc, text.as_slice()) {
        Ok(job) => job,
        Err(fault) => return tell_fault(out, fault),
    };
    let Ended { dev: _, code } = run_text(
        rt,
        alloc,
        dev,
        text.as_slice(),
        job,
        threads,
        stop,
        gate,
        out,
        run,
        Named::new(),
    );
    code
}

// Runs the job that a text spells, and prints its trace. The text only names the job.
fn run_text<E: Device, K: Sink, G: Gate, R: Run, S: Spelling, X: Threads + Wait + Sync>(
    rt: &X,
    alloc: Global,
    dev: E,
    text: &[u8],
    job: Job,
    threads: u32,
    stop: Option<StopWords>,
    gate: &G,
    out: &mut K,
    run: R,
    spelling: S,
) -> Ended<E>
    requires begins { Begins R.start R.clock (E.state dev) }
    requires scripts { AreScripts job.scripts }
    requires spells { job_of S.text ≡ Ok job }
    ensures goes { Goes (E.state dev) (E.state result.dev) }
    ensures ran { RunsBy trace_text (option_map asked_stop stop) R.start R.clock (asked job)
        (E.state dev) (K.state out.old) result.code (E.state result.dev) (K.state out.new) }
{
    let _ = text;
    let shown = Shown::Trace;
    run_job(
        rt, alloc, dev, job, shown, threads, stop, gate, out, run, spelling,
    )
}

// Says why the text was not read. A sink that fails here does not change the status.
fn tell_unread<K: Sink>(out: &mut K, fault: ReadFault) -> u8
    ensures { TellsUnread fault result (K.state out.old) (K.state out.new) }
{
    match fault {
        ReadFault::Source { faults } => {
            let _ = write_source(out, faults);
            4
        }
        ReadFault::Memory => tell_memory(out),
    }
}

// Says why the text is no job.
fn tell_fault<K: Sink>(out: &mut K, fault: ParseFault) -> u8
    ensures { TellsFault fault result (K.state out.old) (K.state out.new) }
{
    match fault {
        ParseFault::Script(ScriptFault { line, column, what }) => {
            let _ = write_script(out, line, column, word_of(what));
            3
        }
        ParseFault::Memory => tell_memory(out),
    }
}

// What is wrong with a text, in the word that is printed.
fn word_of(what: What) -> &'static str
    ensures { result.now ≡ script_word what }
{
    match what {
        What::Command => "command",
        What::Field => "field",
        What::Number => "number",
        What::Path => "path",
        What::Text => "text",
        What::Nested => "nested",
        What::Unopened => "unopened",
        What::Open => "open",
        What::Scripts => "scripts",
        What::Long => "long",
    }
}

//! A job is run, on its device or on one over it that stops, and its end is told.

ghost use Rattle.std.specs.Prelude.{◌≡◌, Ok, Some};
ghost use Rattle.std.specs.Option.{option_map};
ghost use Rattle.r4_devices.specs.Stop.{told};
ghost use Rattle.r4_shared.specs.r4_history.Tables.{asked};
ghost use Rattle.r4_outside.specs.Device.{Goes};
ghost use Rattle.r4_run.specs.Naming.{Begins, IsNamedSo};
ghost use Rattle.r4_run.specs.Running.{Ran};
ghost use Rattle.r4_run.specs.Showing.{text_shown};
ghost use Rattle.r4_run.specs.Stopping.{RanOver, RunsBy};
ghost use Rattle.r4_script.specs.Spelling.{AreScripts};
ghost use Rattle.r4_script.specs.Text.{job_of};
ghost use Rattle.r4_words.specs.Options.{asked_stop};

use crate::ending::{tell_end, tell_memory};
use crate::naming::serve_job;
use crate::session::Outcome;
use crate::showing::Shown;
use crate::spelling::Spelling;
use r4_devices::{StopDevice, Unmade};
use r4_origin::{FromStart, Origin};
use r4_outside::{Device, Gate, Named, NamedNew, Run, Sink};
use r4_script::Job;
use r4_words::StopWords;
use std::alloc::Global;
use std::sync::Wait;
use std::thread::Threads;

/// A run that has ended: its device, and its status (docs/program.md, "Lines and statuses").
pub struct Ended<E> {
    pub dev: E,
    pub code: u8,
}

/// Runs a job on the volume of a device, by so many threads, and prints what is shown of its trace. Then all
/// scripts are answered and all atoms committed, unless a call of the device failed or there was no memory; the
/// status says which (docs/program.md, "Running"). The device comes back. Where a stop is asked for, the run is
/// that of a device over it which stops so.
///
/// The job is one that some text spells, by which contracts name it. No code needs that text.
pub fn run_job<E: Device, K: Sink, G: Gate, R: Run, S: Spelling, X: Threads + Wait + Sync>(
    rt: &X,
    alloc: Global,
    dev: E,
    job: Job,
    shown: Shown,
    threads: u32,
    stop: Option<StopWords>,
    gate: &G,
    out: &mut K,
    run: R,
    spelling: S,
) -> Ended<E>
    requires begins { Begins R.start R.clock (E.state dev) }
    requires scripts { AreScripts job.scripts }
    requires spells { job_of S.text ≡ Ok job }
    ensures goes { Goes (E.state dev) (E.state result.dev) }
    ensures ran { RunsBy (text_shown shown) (option_map asked_stop stop) R.start R.clock (asked job)
        (E.state dev) (K.state out.old) result.code (E.state result.dev) (K.state out.new) }
{
    let _ = (run, spelling);
    let names = Named::new();
    run_named(rt, alloc, dev, job, shown, threads, stop, gate, out, names)
}

// The run names a text that spells its job.
fn run_named<E: Device, K: Sink, G: Gate, N: Run, X: Threads + Wait + Sync>(
    rt: &X,
    alloc: Global,
    dev: E,
    job: Job,
    shown: Shown,
    threads: u32,
    stop: Option<StopWords>,
    gate: &G,
    out: &mut K,
    names: N,
) -> Ended<E>
    requires begins { Begins N.start N.clock (E.state dev) }
    requires scripts { AreScripts job.scripts }
    requires named { IsNamedSo N.scripts N.lender job }
    ensures goes { Goes (E.state dev) (E.state result.dev) }
    ensures ran { RunsBy (text_shown shown) (option_map asked_stop stop) N.start N.clock (asked job)
        (E.state dev) (K.state out.old) result.code (E.state result.dev) (K.state out.new) }
{
    match stop {
        None => run_through(rt, alloc, dev, job, shown, threads, gate, out, names),
        Some(stop) => {
            let origin = Named::new();
            run_stopped(
                rt, alloc, dev, job, shown, threads, stop, gate, out, names, origin,
            )
        }
    }
}

// On the device itself.
fn run_through<E: Device, K: Sink, G: Gate, N: Run, X: Threads + Wait + Sync>(
    rt: &X,
    alloc: Global,
    dev: E,
    job: Job,
    shown: Shown,
    threads: u32,
    gate: &G,
    out: &mut K,
    names: N,
) -> Ended<E>
    requires begins { Begins N.start N.clock (E.state dev) }
    requires scripts { AreScripts job.scripts }
    requires named { IsNamedSo N.scripts N.lender job }
    ensures goes { Goes (E.state dev) (E.state result.dev) }
    ensures ran { Ran (text_shown shown) N.start N.clock (asked job) (E.state dev) (K.state out.old)
        result.code (E.state result.dev) (K.state out.new) }
{
    let before = dev.faults();
    let Outcome { dev, end } = serve_job(rt, alloc, dev, job, shown, threads, gate, out, names);
    let code = tell_end(out, &dev, before, end);
    Ended { dev, code }
}

// On a device that stops, over one that is known to go on from here wherever it comes back.
fn run_stopped<E: Device, K: Sink, G: Gate, N: Run, O: Origin, X: Threads + Wait + Sync>(
    rt: &X,
    alloc: Global,
    dev: E,
    job: Job,
    shown: Shown,
    threads: u32,
    stop: StopWords,
    gate: &G,
    out: &mut K,
    names: N,
    origin: O,
) -> Ended<E>
    requires begins { Begins N.start N.clock (E.state dev) }
    requires scripts { AreScripts job.scripts }
    requires named { IsNamedSo N.scripts N.lender job }
    requires origin { Goes O.began (E.state dev) }
    ensures goes { Goes O.began (E.state result.dev) }
    ensures ran { RunsBy (text_shown shown) (Some (asked_stop stop)) N.start N.clock (asked job)
        (E.state dev) (K.state out.old) result.code (E.state result.dev) (K.state out.new) }
{
    let _ = origin;
    let dev: FromStart<E, O> = FromStart::new(dev);
    match StopDevice::new(alloc, dev, stop.writes, stop.tear, stop.pick) {
        Err(fault) => {
            let Unmade { dev } = fault;
            let code = tell_memory(out);
            Ended {
                dev: dev.into_inner(),
                code,
            }
        }
        Ok(dev) => {
            let Ended { dev, code } = run_stopping(
                rt, alloc, dev, job, shown, threads, gate, out, names,
            );
            Ended {
                dev: dev.into_inner().into_inner(),
                code,
            }
        }
    }
}

// On a device that stops. Where it stopped for want of memory that is told, and nothing else.
fn run_stopping<E: Device, K: Sink, G: Gate, N: Run, X: Threads + Wait + Sync>(
    rt: &X,
    alloc: Global,
    dev: StopDevice<E>,
    job: Job,
    shown: Shown,
    threads: u32,
    gate: &G,
    out: &mut K,
    names: N,
) -> Ended<StopDevice<E>>
    requires begins { Begins N.start N.clock (told E.state dev) }
    requires scripts { AreScripts job.scripts }
    requires named { IsNamedSo N.scripts N.lender job }
    ensures goes { Goes (told E.state dev) (told E.state result.dev) }
    ensures ran { RanOver (text_shown shown) N.start N.clock (asked job) (told E.state dev)
        (K.state out.old) result.dev.starved result.code (told E.state result.dev) (K.state out.new) }
{
    let before = dev.faults();
    let Outcome { dev, end } = serve_job(rt, alloc, dev, job, shown, threads, gate, out, names);
    if dev.starved() {
        let code = tell_memory(out);
        return Ended { dev, code };
    }
    let code = tell_end(out, &dev, before, end);
    Ended { dev, code }
}

//! A generated workload is run.

ghost use Rattle.std.specs.Option.{option_map};
ghost use Rattle.r4_outside.specs.Device.{Goes};
ghost use Rattle.r4_run.specs.Generated.{RunsWorkload};
ghost use Rattle.r4_run.specs.Naming.{Begins};
ghost use Rattle.r4_words.specs.Options.{asked_stop};

use crate::ending::tell_memory;
use crate::running::{Ended, run_job};
use crate::showing::Shown;
use r4_gen::workload;
use r4_outside::{Device, Gate, Named, NamedNew, Run, Sink};
use r4_words::StopWords;
use std::alloc::Global;
use std::sync::Wait;
use std::thread::Threads;

/// Runs the generated workload of a seed on the volume of a device, by so many threads, and prints the summary of the
/// trace: the command `run` with `--gen`. Where a stop is asked for, the run is that of a device over this one which
/// stops so. The answer is the status (docs/program.md, "Running" and "Lines and statuses").
pub fn run_generated<D: Device, K: Sink, G: Gate, R: Run, X: Threads + Wait + Sync>(
    rt: &X,
    alloc: Global,
    seed: u64,
    threads: u32,
    stop: Option<StopWords>,
    dev: &mut D,
    out: &mut K,
    gate: &G,
    run: R,
) -> u8
    requires begins { Begins R.start R.clock (D.state dev.old) }
    ensures goes { Goes (D.state dev.old) (D.state dev.new) }
    ensures runs { RunsWorkload seed (option_map asked_stop stop) R.start R.clock
        (D.state dev.old) (K.state out.old) result (D.state dev.new) (K.state out.new) }
{
    let Ok(job) = workload(alloc, seed) else {
        return tell_memory(out);
    };
    let shown = Shown::Summary { seed };
    let names = Named::new();
    let Ended { dev: _, code } = run_job(
        rt, alloc, dev, job, shown, threads, stop, gate, out, run, names,
    );
    code
}

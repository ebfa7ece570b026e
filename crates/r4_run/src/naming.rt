//! A run whose names are picked, on a device that goes on from where it began.

ghost use Rattle.r4_shared.specs.r4_history.Tables.{asked};
ghost use Rattle.r4_outside.specs.Device.{Goes};
ghost use Rattle.r4_run.specs.Naming.{Begins, IsNamedSo};
ghost use Rattle.r4_run.specs.Running.{Served};
ghost use Rattle.r4_run.specs.Showing.{text_shown};
ghost use Rattle.r4_script.specs.Spelling.{AreScripts};

use crate::session::{Outcome, session};
use crate::showing::Shown;
use r4_origin::{FromStart, Origin};
use r4_outside::{Device, Gate, Named, NamedNew, Run, Sink};
use r4_script::Job;
use std::alloc::Global;
use std::sync::Wait;
use std::thread::Threads;

// Serves a job on the volume of a device, by so many threads, and prints what is shown of its trace. Then
// all scripts are answered and all atoms committed, unless a call of the device failed or there was no
// memory. The device comes back.
pub(crate) fn serve_job<E: Device, K: Sink, G: Gate, N: Run, X: Threads + Wait + Sync>(
    rt: &X,
    alloc: Global,
    dev: E,
    job: Job,
    shown: Shown,
    threads: u32,
    gate: &G,
    out: &mut K,
    names: N,
) -> Outcome<E>
    requires begins { Begins N.start N.clock (E.state dev) }
    requires scripts { AreScripts job.scripts }
    requires named { IsNamedSo N.scripts N.lender job }
    ensures goes { Goes (E.state dev) (E.state result.dev) }
    ensures served { Served (text_shown shown) N.start N.clock (asked job) (E.state dev) (K.state out.old)
        result.end (E.state result.dev) (K.state out.new) }
{
    let origin = Named::new();
    go_on(
        rt, alloc, dev, job, shown, threads, gate, out, names, origin,
    )
}

// The device is known to go on from here, wherever it comes back.
fn go_on<E: Device, K: Sink, G: Gate, N: Run, O: Origin, X: Threads + Wait + Sync>(
    rt: &X,
    alloc: Global,
    dev: E,
    job: Job,
    shown: Shown,
    threads: u32,
    gate: &G,
    out: &mut K,
    names: N,
    origin: O,
) -> Outcome<E>
    requires begins { Begins N.start N.clock (E.state dev) }
    requires scripts { AreScripts job.scripts }
    requires named { IsNamedSo N.scripts N.lender job }
    requires origin { Goes O.began (E.state dev) }
    ensures goes { Goes O.began (E.state result.dev) }
    ensures served { Served (text_shown shown) N.start N.clock (asked job) (E.state dev) (K.state out.old)
        result.end (E.state result.dev) (K.state out.new) }
{
    let _ = (names, origin);
    let dev: FromStart<E, O> = FromStart::new(dev);
    let Outcome { dev, end } = session::<FromStart<E, O>, K, G, N, X>(
        rt, alloc, dev, job, shown, threads, gate, out,
    );
    Outcome {
        dev: dev.into_inner(),
        end,
    }
}

//! A session: a core is opened on the device, served to its end, and gives the device back.

ghost use Rattle.r4_shared.specs.r4_history.Tables.{asked};
ghost use Rattle.r4_run.specs.Naming.{Begins, IsNamedSo};
ghost use Rattle.r4_run.specs.Running.{Closed, Served};
ghost use Rattle.r4_run.specs.Showing.{text_shown};
ghost use Rattle.r4_script.specs.Spelling.{AreScripts};

use crate::ending::{End, Standing, standing_of};
use crate::showing::{Shown, print_shown};
use r4_outside::{Device, Gate, Run, Sink};
use r4_print::PrintFault;
use r4_script::Job;
use r4_shared::{Core, OpenFault, finish, share_out};
use std::alloc::Global;
use std::sync::Wait;
use std::thread::Threads;

/// How many neighbouring dirty nodes a flush relocates; fewer are overwritten.
const RELOCATED: u64 = 64;

/// A run before its last line: its device, and how it ended.
pub(crate) struct Outcome<E> {
    pub(crate) dev: E,
    pub(crate) end: End,
}

// Runs a job on a device.
pub(crate) fn session<E: Device, K: Sink, G: Gate, N: Run, X: Threads + Wait + Sync>(
    rt: &X,
    alloc: Global,
    dev: E,
    job: Job,
    shown: Shown,
    threads: u32,
    gate: &G,
    out: &mut K,
) -> Outcome<E>
    requires begins { Begins N.start N.clock (E.state dev) }
    requires scripts { AreScripts job.scripts }
    requires named { IsNamedSo N.scripts N.lender job }
    ensures served { Served (text_shown shown) N.start N.clock (asked job) (E.state dev) (K.state out.old)
        result.end (E.state result.dev) (K.state out.new) }
{
    match Core::<E, N>::open(alloc, dev, job, RELOCATED) {
        Err(OpenFault { dev, why }) => Outcome {
            dev,
            end: End::Unopened(why),
        },
        Ok(core) => {
            let mut core = share_out(rt, alloc, core, threads, gate);
            finish(rt, alloc, &mut core, gate);
            let (dev, standing, printed) = close(alloc, core, shown, out);
            Outcome {
                dev,
                end: End::Opened { standing, printed },
            }
        }
    }
}

// What is shown of the trace is printed, and the device goes back.
fn close<E: Device, K: Sink, N: Run>(
    alloc: Global,
    core: Core<E, N>,
    shown: Shown,
    out: &mut K,
) -> (E, Standing, Result<(), PrintFault>)
    ensures { Closed (text_shown shown) N.start N.clock N.scripts (K.state out.old) result.1 result.2
        (E.state result.0) (K.state out.new) }
{
    core.lawful();
    let standing = standing_of(&core);
    let printed = print_shown(alloc, out, shown, core.trace());
    let dev = core.into_device();
    (dev, standing, printed)
}

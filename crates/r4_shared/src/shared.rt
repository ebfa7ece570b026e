//! The lock round a core.

ghost use Rattle.r4_apply.specs.r4_take.Sending.{CanBeBuilt};

use crate::stepping::{Next, bring_back, next_step};
use r4_apply::{Core, Step, Task};
use r4_base::Memory;
use r4_made::make;
use r4_outside::{Device, Gate, Run};
use std::alloc::Global;
use std::sync::{Condvar, Mutex, Wait};
use std::thread;
use std::thread::Threads;

/// A core that threads share. Whoever waits for a step of it is woken when another changed it.
pub struct Shared<D: Device, R: Run> {
    core: Mutex<Core<D, R>>,
    changed: Condvar,
}

impl<D: Device, R: Run> Shared<D, R> {
    /// Puts a lock round a core. No memory.
    pub fn new(core: Core<D, R>) -> Shared<D, R> {
        Shared {
            core: Mutex::new(core),
            changed: Condvar::new(),
        }
    }

    /// Takes steps of the core until all scripts are finished: each by itself under the lock. Tasks are
    /// built under no lock; the gate is passed first. Where no script can be served it waits for a
    /// change. The only error is want of memory for a step; what others do then goes on.
    pub fn pump<X: Wait, G: Gate>(&self, rt: &X, alloc: Global, gate: &G) -> Result<(), Memory> {
        for _ in rt.forever() {
            let mut core = self.core.lock(rt);
            match next_step(&mut *core, alloc)? {
                Next::Finished => return Ok(()),
                Next::Wait(_) => drop(self.changed.wait(rt, core)),
                Next::Work(task) => {
                    drop(core);
                    self.work(rt, alloc, gate, task);
                }
                Next::Flushed(_) => {
                    drop(core);
                    self.commit(rt);
                }
                Next::Replied(_) | Next::Unflushed(_) => {
                    drop(core);
                    self.changed.notify_all();
                }
            }
        }
        unreachable!()
    }

    // A task is built under no lock, and brought back.
    fn work<X: Wait, G: Gate>(&self, rt: &X, alloc: Global, gate: &G, task: Task)
        requires { CanBeBuilt task }
    {
        let built = make(alloc, gate, task);
        bring_back(&mut *self.core.lock(rt), alloc, built);
        self.changed.notify_all();
    }

    // The commit that is under way goes on to its end, each step under a lock of its own.
    fn commit<X: Wait>(&self, rt: &X) {
        for _ in rt.forever() {
            let step = self.core.lock(rt).commit_step();
            if step != Step::More {
                self.changed.notify_all();
            }
            if matches!(step, Step::Idle | Step::Broken { .. }) {
                return;
            }
        }
    }

    /// Takes the lock away. No memory.
    pub fn into_core(self) -> Core<D, R> {
        let Shared { core, changed: _ } = self;
        core.into_inner()
    }
}

/// Lets so many threads take steps of a core, until all scripts are finished or there is no memory for
/// more, and gives the core back.
pub fn share_out<D: Device, R: Run, G: Gate, X: Threads + Wait + Sync>(
    rt: &X,
    alloc: Global,
    core: Core<D, R>,
    threads: u32,
    gate: &G,
) -> Core<D, R> {
    let shared = Shared::new(core);
    pump_all(rt, alloc, &shared, threads, gate);
    shared.into_core()
}

// Where a thread cannot be started, the caller pumps in its place.
fn pump_all<'x, D: Device, R: Run, G: Gate, X: Threads + Wait + Sync>(
    rt: &'x X,
    alloc: Global,
    shared: &'x Shared<D, R>,
    threads: u32,
    gate: &'x G,
) {
    thread::scope(thread::scope_env(), rt, |scope| {
        for _ in 0..threads {
            if scope.spawn(move || shared.pump(rt, alloc, gate)).is_err() {
                let _ = shared.pump(rt, alloc, gate);
            }
        }
    });
}

//! A gate at which others go first.

use r4_base::ScriptNo;
use r4_outside::Gate;
use std::sync::atomic::{AtomicBool, Ordering};
use std::thread;

// So often a task that is held looks whether the other one came, and after so many looks it lets other
// threads go first.
const LOOKS: u32 = 200_000_000;

const LOOKS_A_TURN: u32 = 100_000;

/// A task: its script, and how many of the script's commands stand before its own.
#[derive(Clone, Copy, Debug, PartialEq, Eq)]
pub struct Place {
    pub script: u32,
    pub before: u32,
}

/// A gate at which others go first: at each task so many times, and one task is held until another one
/// comes.
#[derive(Drop)]
pub struct Slow {
    times: u32,
    held: Option<Held>,
}

// A task that is held, and until which one comes; whether that came; and whether the first one gave up.
#[derive(Drop)]
struct Held {
    who: Place,
    until: Place,
    came: AtomicBool,
    gave_up: AtomicBool,
}

impl Slow {
    /// All go through at once.
    pub fn open() -> Slow {
        Slow::by(0)
    }

    /// At each task others go first so many times.
    pub fn by(times: u32) -> Slow {
        Slow { times, held: None }
    }

    /// One task is held until the other one comes; where that does not come for long, it gives up.
    pub fn until(who: Place, until: Place) -> Slow {
        Slow {
            times: 0,
            held: Some(Held {
                who,
                until,
                came: AtomicBool::new(false),
                gave_up: AtomicBool::new(false),
            }),
        }
    }

    /// Whether a task that was held gave up.
    pub fn gave_up(&self) -> bool {
        match &self.held {
            Some(held) => held.gave_up.load(Ordering::SeqCst),
            None => false,
        }
    }
}

impl Gate for Slow {
    fn pass(&self, script: ScriptNo, index: u32) {
        for _ in 0..self.times {
            thread::yield_now();
        }
        if let Some(held) = &self.held {
            held.pass(Place {
                script: script.0,
                before: index,
            });
        }
    }
}

impl Held {
    // A task comes.
    fn pass(&self, place: Place) {
        if place == self.until {
            self.came.store(true, Ordering::SeqCst);
        }
        if place == self.who {
            self.wait();
        }
    }

    // Waits for the other one.
    fn wait(&self) {
        for look in 0..LOOKS {
            if self.came.load(Ordering::SeqCst) {
                return;
            }
            if look % LOOKS_A_TURN == 0 {
                thread::yield_now();
            }
        }
        self.gave_up.store(true, Ordering::SeqCst);
    }
}

//! Two threads, of which one is held with its task until the other's second command.

use crate::files::{IN_EXTENTS, IN_TAILS, two_files};
use r4_outside::{MemoryDevice, MemorySink};
use r4_run_testing::{Place, Slow, call_at};
use std::alloc::Global;
use std::process::Abort;
use std::sync::Wait;
use std::test::Fail;
use std::thread::Threads;

static TWO: [&str; 4] = ["run", "image", "--threads", "2"];

const TEXT: &str = "\
script\n\
write /a 8192 XY\n\
script\n\
write /b 8192 XY\n\
stat /b\n";

const TEXT_FIRST: &str = "\
script\n\
write /a 0 XY\n\
script\n\
write /b 0 XY\n\
stat /b\n";

const BEGUN: &str = "\
begin t1 s1\n\
begin t2 s2\n\
done t2 s2 c1 ok\n\
ended t2\n\
begin t3 s2\n";

const DONE: &str = "\
done t1 s1 c1 ok\n\
ended t1\n";

const SEALED: &str = "\
sealed a1\n\
committed a1\n\
sealed a2\n\
committed a2\n\
sealed a3\n\
committed a3\n";

// Whether this was printed. The first script's command is done before the second one's second
// command, or behind it: once that comes to the gate, both threads are on their way.
fn is_told(alloc: Global, told: &str, size: u64) -> Result<bool, Fail> {
    let seen = format!(in alloc; "done t3 s2 c2 attr 100644 1 {size} 0 0 0 0 0\nended t3\n")?;
    let before = format!(in alloc; "{BEGUN}{DONE}{seen}{SEALED}")?;
    let behind = format!(in alloc; "{BEGUN}{seen}{DONE}{SEALED}")?;
    Ok(told == before.as_str() || told == behind.as_str())
}

// The first script's first command is held until the second one's second command.
fn gate() -> Slow {
    let held = Place {
        script: 1,
        before: 0,
    };
    let other = Place {
        script: 2,
        before: 1,
    };
    Slow::until(held, other)
}

// Runs scripts over files of this size at the gate, and looks at what is printed.
fn runs_held<X: Abort + Threads + Wait + Sync>(
    rt: &X,
    alloc: Global,
    dev: &mut MemoryDevice,
    text: &str,
    size: u64,
) -> Result<(), Fail> {
    let gate = gate();
    let mut out = MemorySink::new(alloc, 1000)?;
    let status = call_at(rt, alloc, &gate, &TWO, dev, text, &mut out)?;
    assert_eq!(rt; status, 0);
    let told = String::from_utf8_lossy(alloc, out.written())?;
    assert!(rt; is_told(alloc, told.as_str(), size)?, "{}", told.as_str());
    assert!(rt; !gate.gave_up());
    Ok(())
}

// No lock is held while a task is worked at: else the second script could not get on.
#[test]
fn held_task_holds_nobody(rt: HostRuntime) -> Result<(), Fail> {
    let mut dev = two_files(&rt, rt.alloc(), IN_TAILS)?;
    runs_held(&rt, rt.alloc(), &mut dev, TEXT, 16_384)
}

// In extents neither.
#[test]
fn held_task_of_a_large_file_holds_nobody(rt: HostRuntime) -> Result<(), Fail> {
    let mut dev = two_files(&rt, rt.alloc(), IN_EXTENTS)?;
    runs_held(&rt, rt.alloc(), &mut dev, TEXT_FIRST, 20_480)
}

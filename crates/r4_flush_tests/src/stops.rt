//! A job on a device that stops: before, within and behind each of its writes, with sectors that are
//! torn or go back. What is left is the volume of the first atoms that were committed.

ghost use Rattle.std.specs.Prelude.{IfOk};
ghost use Rattle.r4_apply.specs.r4_next.Taking.{BuildsIfWork};
ghost use Rattle.r4_apply.specs.r4_take.Sending.{CanBeBuilt};

use r4_apply::{Applied, Core, OpenFault, Taken, apply, flush, take};
use r4_base::AtomNo;
use r4_build::{Task, build};
use r4_devices::StopDevice;
use r4_list::list;
use r4_mkfs::mkfs;
use r4_outside::{MemoryDevice, MemorySink, OpenGate, Unnamed};
use r4_script::parse;
use r4_trace::{Entry, Trace};
use std::alloc::Global;
use std::process::Abort;
use std::test::Fail;

/// A core on a volume in memory, on a device that may stop.
type Running = Core<StopDevice<MemoryDevice>, Unnamed>;

/// Behind how many writes a device stops; which sectors of the next one it writes; and which image of
/// what was not synced it leaves.
#[derive(Clone, Copy, Debug, PartialEq, Eq)]
struct Stop {
    writes: u64,
    tear: u8,
    pick: Option<u64>,
}

// The sectors of a torn write, and the image of what was not synced.
static WAYS: [(u8, Option<u64>); 7] = [
    (0, None),
    (1, None),
    (85, None),
    (254, None),
    (255, None),
    (85, Some(1)),
    (85, Some(2)),
];

// So many writes the job makes.
const WRITES: u64 = 30;

const SCRIPTS: &str = "\
script\ncreate /a\nwrite /a 0 one\ncommit\n\
mkdir /d\nwrite /a 0 three\ncommit\n\
rename /a /d/b\ncommit\nstat /\n";

// The listing after each of the commits.
static STATES: [&str; 4] = [
    "d 0755 2 0 0 0 /\n",
    "d 0755 2 0 0 1 /\nf 0644 1 0 0 3 /a\n",
    "d 0755 3 0 0 2 /\nf 0644 1 0 0 5 /a\nd 0755 2 0 0 0 /d\n",
    "d 0755 3 0 0 1 /\nd 0755 2 0 0 1 /d\nf 0644 1 0 0 5 /d/b\n",
];

// The core of the job on a fresh volume.
fn opened(alloc: Global, stop: Stop) -> Result<Running, Fail> {
    let Ok(job) = parse(alloc, SCRIPTS.as_bytes()) else {
        return Err(Fail::from("the scripts are refused"));
    };
    let below = fresh(alloc)?;
    let Ok(dev) = StopDevice::new(alloc, below, stop.writes, stop.tear, stop.pick) else {
        return Err(Fail::from("no memory for a torn write"));
    };
    match Core::open(alloc, dev, job, 1000) {
        Ok(core) => Ok(core),
        Err(OpenFault { dev: _, why: _ }) => Err(Fail::from("the core is not opened")),
    }
}

// A fresh volume of 64 blocks.
fn fresh(alloc: Global) -> Result<MemoryDevice, Fail> {
    let mut dev = MemoryDevice::plain(alloc, 64)?;
    match mkfs(alloc, &mut dev, b"") {
        Ok(_) => Ok(dev),
        Err(_) => Err(Fail::from("no volume is made")),
    }
}

// What there is to do next.
fn next(core: &mut Running, alloc: Global) -> Result<Taken, Fail>
    ensures { IfOk result BuildsIfWork }
{
    if core.atoms().begun() == u32::MAX {
        return Err(Fail::from("there are too many transactions"));
    }
    Ok(take(core, alloc)?)
}

// A task is built and applied.
fn work(core: &mut Running, alloc: Global, task: Task) -> Result<(), Fail>
    requires { CanBeBuilt task }
{
    let Ok(built) = build(alloc, &OpenGate, task) else {
        return Err(Fail::from("a task is not built"));
    };
    match apply(core, alloc, built) {
        Applied::Done => Ok(()),
        Applied::Stale { .. } => Err(Fail::from("a task is stale")),
        Applied::Gone { .. } => Err(Fail::from("a task is gone")),
    }
}

// An atom is flushed, and its commit goes on to its end.
fn commit(core: &mut Running, alloc: Global, atom: AtomNo) -> Result<(), Fail> {
    let sound = core.broken().is_none() && core.atom_under_way().is_none();
    match core.next_atom() {
        Some(closed) if sound && closed == atom => flush(core, alloc, closed)?,
        _ => return Err(Fail::from("the atom cannot be flushed")),
    }
    for _ in 0..30u32 {
        core.commit_step();
    }
    Ok(())
}

// All is done; once the device has stopped, all that is left is refused.
fn run(core: &mut Running, alloc: Global) -> Result<(), Fail> {
    for _ in 0..100u32 {
        match next(core, alloc)? {
            Taken::Work(task) => work(core, alloc, task)?,
            Taken::Replied(_) => (),
            Taken::Flush(atom) => commit(core, alloc, atom)?,
            Taken::Finished => return Ok(()),
            Taken::Wait(_) => return Err(Fail::from("a script waits")),
        }
    }
    Err(Fail::from("the run has no end"))
}

// How many atoms were committed, and how many times that was acknowledged.
fn counted(trace: &Trace) -> (usize, usize) {
    let (mut committed, mut acked) = (0usize, 0usize);
    for at in 0..trace.len() {
        match trace.entry(at) {
            Entry::Committed { .. } => committed = committed.saturating_add(1),
            Entry::Acked { .. } => acked = acked.saturating_add(1),
            _ => (),
        }
    }
    (committed, acked)
}

// What is listed of a device.
fn listed(alloc: Global, dev: &mut MemoryDevice) -> Result<Vec<u8>, Fail> {
    let mut out = MemorySink::new(alloc, 100)?;
    match list(alloc, dev, b"/", &mut out) {
        Ok(()) => Ok(out.written().to_vec(alloc)?),
        Err(_) => Err(Fail::from("the device is not listed")),
    }
}

// Which of the states is left on a device.
fn state_on(alloc: Global, dev: &mut MemoryDevice) -> Result<Option<usize>, Fail> {
    let text = listed(alloc, dev)?;
    Ok(
        STATES
            .iter()
            .position(|state| state.as_bytes() == text.as_slice()),
    )
}

// How many atoms were committed and acknowledged, and the device that is left.
fn ran(alloc: Global, stop: Stop) -> Result<((usize, usize), MemoryDevice), Fail> {
    let mut core = opened(alloc, stop)?;
    let done = run(&mut core, alloc);
    let counts = counted(core.trace());
    let dev = core.into_device().into_inner();
    match done {
        Ok(()) => Ok((counts, dev)),
        Err(fault) => {
            drop(dev);
            Err(fault)
        }
    }
}

// How many atoms were committed and acknowledged, and which of the states is left.
fn left(alloc: Global, stop: Stop) -> Result<(usize, usize, Option<usize>), Fail> {
    let ((committed, acked), mut dev) = ran(alloc, stop)?;
    let state = state_on(alloc, &mut dev)?;
    Ok((committed, acked, state))
}

// The whole first atoms are left, with all that were acknowledged, and no more than one of which the
// commit was not told.
fn is_whole<X: Abort>(rt: &X, alloc: Global, stop: Stop) -> Result<(), Fail> {
    let (committed, acked, state) = left(alloc, stop)?;
    let whole = state == Some(committed) || state == Some(committed.saturating_add(1));
    assert!(rt; whole, "{stop:?} {committed} {state:?}");
    assert!(rt; acked <= committed, "{stop:?}");
    assert!(rt; (stop.writes == WRITES) == (acked == 3), "{stop:?}");
    Ok(())
}

#[test]
fn whole_atoms_are_left_wherever_the_device_stops(rt: HostRuntime) -> Result<(), Fail> {
    for writes in 0..=WRITES {
        for (tear, pick) in &WAYS {
            let (tear, pick) = (*tear, *pick);
            is_whole(&rt, rt.alloc(), Stop { writes, tear, pick })?;
        }
    }
    Ok(())
}

//! Each stop of a session, with torn writes and with sectors that go back, beside what is made of its calls by the rule.

ghost use Rattle.r4_outside.specs.Device.{Goes};

use crate::images::Image;
use crate::tape::{Call, Tape};
use r4_base::Block;
use r4_devices::StopDevice;
use r4_mkfs::mkfs;
use r4_outside::Device;
use r4_replay::replay;
use std::alloc::Global;
use std::fmt::Debug;
use std::process::Abort;
use std::test::Fail;

static MASKS: [u8; 5] = [0, 1, 85, 254, 255];

// No session of these has so many writes.
const WHOLE: Row = Row {
    stop: 100,
    tear: 0,
    pick: None,
};

static PICKS: [Option<u64>; 3] = [None, Some(1), Some(2)];

// What is stopped.
#[derive(Clone, Copy)]
enum Session {
    Mkfs,
    Replay,
}

// Where it is stopped, and how.
#[derive(Clone, Copy, Debug)]
struct Row {
    stop: u64,
    tear: u8,
    pick: Option<u64>,
}

// Runs it. Did it go well?
fn run<D: Device>(alloc: Global, session: Session, dev: &mut D) -> bool
    ensures { Goes (D.state dev.old) (D.state dev.new) }
{
    match session {
        Session::Mkfs => mkfs(alloc, dev, b"r4").is_ok(),
        Session::Replay => replay(alloc, dev).is_ok(),
    }
}

// An image of 64 blocks with a log of three transactions, which write to some blocks more than once.
fn logged(alloc: Global) -> Result<Image, Fail> {
    let mut image = Image::new(alloc, 64)?;
    image.name_none_placed()?;
    image.commit(30, 0, &[(55, 45), (56, 46)])?;
    image.commit(32, 30, &[(17, 47), (55, 48)])?;
    image.commit(34, 32, &[(55, 49)])?;
    Ok(image)
}

// The state of a stop when its write comes: what reading gives, what it gave at the last sync, and which blocks were written
// since.
#[derive(Drop)]
struct Course {
    now: Image,
    synced: Image,
    written: Vec<u64>,
}

impl Course {
    fn new(alloc: Global, start: &Image) -> Result<Course, Fail> {
        Ok(Course {
            now: start.copy()?,
            synced: start.copy()?,
            written: Vec::new(alloc),
        })
    }

    fn sync(&mut self) -> Result<(), Fail> {
        self.synced = self.now.copy()?;
        self.written.clear();
        Ok(())
    }

    fn write(&mut self, at: u64, block: &Block) -> Result<(), Fail> {
        self.now.put(at, block)?;
        self.written.push(at)?;
        Ok(())
    }

    // Tears a write, and lets sectors go back.
    fn stop(&mut self, at: u64, block: &Block, row: Row) -> Result<(), Fail> {
        let mut number = row.pick.unwrap_or(0);
        for other in 0..64u64 {
            for s in 0..8u32 {
                let torn = other == at && (row.tear >> s) & 1 == 1;
                if torn {
                    self.now.put_sector(at, s as usize, block)?;
                } else if row.pick.is_some() && self.written.contains(&other) {
                    number = behind(number);
                    if number < 1 << 63 {
                        self.now
                            .put_sector(other, s as usize, self.synced.block(other)?)?;
                    }
                }
            }
        }
        Ok(())
    }
}

fn behind(number: u64) -> u64 {
    number
        .wrapping_mul(6364136223846793005)
        .wrapping_add(1442695040888963407)
}

// How many of the calls are writes.
fn writes_of(calls: &[Call]) -> u64 {
    calls
        .iter()
        .filter(|call| matches!(call, Call::Wrote(_, _)))
        .count() as u64
}

// What these calls leave with a stop.
fn left(alloc: Global, start: &Image, calls: &[Call], row: Row) -> Result<Image, Fail> {
    let mut course = Course::new(alloc, start)?;
    let mut passes = row.stop;
    for call in calls {
        match call {
            Call::Synced => course.sync()?,
            Call::Wrote(at, block) if passes == 0 => {
                course.stop(*at, block, row)?;
                return Ok(course.now);
            }
            Call::Wrote(at, block) => {
                course.write(*at, block)?;
                passes = passes.saturating_sub(1);
            }
        }
    }
    Ok(course.now)
}

// An assertion is proved at each place where it stands, so there is one for all of them.
fn same<T: PartialEq + Debug, X: Abort>(rt: &X, got: &T, wanted: &T, row: Row) {
    assert_eq!(rt; *got, *wanted, "{row:?}");
}

// Stops the session once, and looks at what is left.
fn is_stopped<X: Abort>(
    rt: &X,
    alloc: Global,
    session: Session,
    start: &Image,
    calls: &[Call],
    row: Row,
) -> Result<(), Fail> {
    let below = start.device()?;
    let Ok(mut dev) = StopDevice::new(alloc, below, row.stop, row.tear, row.pick) else {
        return Err(Fail::from("no memory for the torn write"));
    };
    let ends = writes_of(calls) <= row.stop;
    same(rt, &run(alloc, session, &mut dev), &ends, row);
    same(rt, &dev.starved(), &false, row);
    let wanted = left(alloc, start, calls, row)?;
    let mut dev = dev.into_inner();
    same(rt, &wanted.first_difference(&mut dev)?, &None, row);
    Ok(())
}

// Stops the session at each write, and once at none.
fn all_stops<X: Abort>(rt: &X, alloc: Global, session: Session, writes: u64) -> Result<(), Fail> {
    let start = logged(alloc)?;
    let mut tape = Tape::new(alloc, start.device()?);
    same(rt, &run(alloc, session, &mut tape), &true, WHOLE);
    let calls = tape.into_calls();
    same(rt, &writes_of(&calls), &writes, WHOLE);
    for stop in 0..=writes {
        for tear in &MASKS {
            for pick in &PICKS {
                let (tear, pick) = (*tear, *pick);
                let row = Row { stop, tear, pick };
                is_stopped(rt, alloc, session, &start, &calls, row)?;
            }
        }
    }
    Ok(())
}

// Stops a replay. What it leaves, and what a crash then leaves of that, is replayed again, and ends as a whole replay.
fn settles<X: Abort>(
    rt: &X,
    alloc: Global,
    start: &Image,
    whole: &Image,
    row: Row,
) -> Result<(), Fail> {
    let below = start.recorded()?;
    let Ok(mut dev) = StopDevice::new(alloc, below, row.stop, row.tear, row.pick) else {
        return Err(Fail::from("no memory for the torn write"));
    };
    run(alloc, Session::Replay, &mut dev);
    let mut dev = dev.into_inner();
    for crash in 0..2u64 {
        let mut crashed = dev.crash(alloc, dev.clock(), crash)?;
        same(rt, &run(alloc, Session::Replay, &mut crashed), &true, row);
        same(rt, &whole.first_difference(&mut crashed)?, &None, row);
    }
    same(rt, &run(alloc, Session::Replay, &mut dev), &true, row);
    same(rt, &whole.first_difference(&mut dev)?, &None, row);
    Ok(())
}

#[test]
fn what_a_stopped_replay_leaves_settles(rt: HostRuntime) -> Result<(), Fail> {
    let alloc = rt.alloc();
    let start = logged(alloc)?;
    let mut tape = Tape::new(alloc, start.device()?);
    same(&rt, &run(alloc, Session::Replay, &mut tape), &true, WHOLE);
    let whole = left(alloc, &start, &tape.into_calls(), WHOLE)?;
    for stop in 0..9 {
        for tear in &MASKS {
            for pick in &PICKS {
                let (tear, pick) = (*tear, *pick);
                settles(&rt, alloc, &start, &whole, Row { stop, tear, pick })?;
            }
        }
    }
    Ok(())
}

#[test]
fn mkfs_is_stopped_at_each_write(rt: HostRuntime) -> Result<(), Fail> {
    all_stops(&rt, rt.alloc(), Session::Mkfs, 8)
}

#[test]
fn replay_is_stopped_at_each_write(rt: HostRuntime) -> Result<(), Fail> {
    all_stops(&rt, rt.alloc(), Session::Replay, 8)
}

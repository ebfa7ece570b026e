//! A call of a commit fails while two tasks are out; and then they come back (docs/core.md, "A commit").

use crate::sending::{Running, built, sent};
use r4_base::AtomNo;
use r4_build::{Built, Task};
use r4_core_testing::{
    After, Image, Log, ONE, Taken, applied, device, flush, next, opened_on, refuse_memory, run,
};
use std::alloc::Global;
use std::test::Fail;

// Each script writes into a leaf of its own, so that none meets the other's cells.
const SCRIPTS: &str = "\
script\nwrite /a 5000 x\ncommit\n\
script\nwrite /b 8000 y\nstat /b\n\
script\nwrite /b 12000 z\n";

// The call of the device that fails, counted from the one that makes it, and what is told: the first
// sync of the commit, which comes before the journal header; the sync behind the header; and the write
// of a home.
static CALLS: [(u64, &str); 3] = [
    (
        46,
        "\
begin t1 s1\n\
begin t2 s2\n\
begin t3 s3\n\
done t1 s1 c1 ok\n\
ended t1\n\
sealed a1\n\
broken 32 1\n\
refused t0 s2 c1 reopen 32\n\
refused t0 s3 c1 reopen 32\n\
refused t0 s1 c2 reopen 32\n\
refused t0 s2 c2 reopen 32\n\
finished\n",
    ),
    (
        48,
        "\
begin t1 s1\n\
begin t2 s2\n\
begin t3 s3\n\
done t1 s1 c1 ok\n\
ended t1\n\
sealed a1\n\
broken 34 1\n\
refused t0 s2 c1 reopen 34\n\
refused t0 s3 c1 reopen 34\n\
refused t0 s1 c2 reopen 34\n\
refused t0 s2 c2 reopen 34\n\
finished\n",
    ),
    (
        49,
        "\
begin t1 s1\n\
begin t2 s2\n\
begin t3 s3\n\
done t1 s1 c1 ok\n\
ended t1\n\
sealed a1\n\
committed a1\n\
broken 35 1\n\
refused t0 s2 c1 reopen 35\n\
refused t0 s3 c1 reopen 35\n\
refused t0 s1 c2 reopen 35\n\
refused t0 s2 c2 reopen 35\n\
finished\n",
    ),
];

// What was built of a task comes, and nothing stands against it.
fn come(core: &mut Running, alloc: Global, built: Built) -> Result<(), Fail> {
    match applied(core, alloc, built) {
        After::Done => Ok(()),
        _ => Err(Fail::from("a task is stale or gone")),
    }
}

// The atom that is to be flushed is sealed, and its commit goes on to its end.
fn commit(core: &mut Running, alloc: Global) -> Result<(), Fail> {
    let Taken::Flush(atom) = next(core, alloc)? else {
        return Err(Fail::from("no atom is to be flushed"));
    };
    seal(core, alloc, atom)?;
    for _ in 0..30u32 {
        core.commit_step();
    }
    Ok(())
}

// The atom is sealed.
fn seal(core: &mut Running, alloc: Global, atom: AtomNo) -> Result<(), Fail> {
    let sound = core.broken().is_none() && core.atom_under_way().is_none();
    match core.next_atom() {
        Some(closed) if sound && closed == atom => Ok(flush(core, alloc, closed)?),
        _ => Err(Fail::from("the atom cannot be flushed")),
    }
}

// Two tasks go out, and are built.
fn two_built(core: &mut Running, alloc: Global) -> Result<(Built, Built), Fail> {
    let first = built(core, alloc)?;
    match built(core, alloc) {
        Ok(second) => Ok((first, second)),
        Err(fault) => {
            drop(first);
            Err(fault)
        }
    }
}

// The first task comes back, and its atom is committed.
fn come_and_commit(core: &mut Running, alloc: Global, first: Built) -> Result<(), Fail> {
    come(core, alloc, first)?;
    commit(core, alloc)
}

// A task comes back, for which there was no memory.
fn starve(core: &mut Running, task: Task) {
    refuse_memory(core, &task);
}

// The last task comes back, for which there was no memory, and all else is done.
fn come_last(core: &mut Running, alloc: Global, third: Task, log: &mut Log) -> Result<(), Fail> {
    starve(core, third);
    run(core, alloc, ONE, log)
}

// The other two come back, for the last of which there was no memory.
fn come_late(
    core: &mut Running,
    alloc: Global,
    second: Built,
    third: Task,
    log: &mut Log,
) -> Result<(), Fail> {
    match come(core, alloc, second) {
        Ok(()) => come_last(core, alloc, third, log),
        Err(fault) => {
            drop(third);
            Err(fault)
        }
    }
}

// All three come back.
fn come_back(
    core: &mut Running,
    alloc: Global,
    built: (Built, Built),
    third: Task,
    log: &mut Log,
) -> Result<(), Fail> {
    let (first, second) = built;
    match come_and_commit(core, alloc, first) {
        Ok(()) => come_late(core, alloc, second, third, log),
        Err(fault) => {
            drop((second, third));
            Err(fault)
        }
    }
}

// The third task goes out, and then all three come back.
fn third_goes(
    core: &mut Running,
    alloc: Global,
    built: (Built, Built),
    log: &mut Log,
) -> Result<(), Fail> {
    match sent(core, alloc) {
        Ok(third) => come_back(core, alloc, built, third, log),
        Err(fault) => {
            drop(built);
            Err(fault)
        }
    }
}

// Three tasks go out, the first comes back and its atom is committed, and then the other two come back,
// for the last of which there was no memory.
fn all(core: &mut Running, alloc: Global, log: &mut Log) -> Result<(), Fail> {
    let built = two_built(core, alloc)?;
    third_goes(core, alloc, built, log)
}

// What is told where this call of the device fails, counted from the one that makes it.
fn told(alloc: Global, call: u64) -> Result<String, Fail> {
    let mut dev = device(alloc, Image::TwoFiles)?;
    dev.fail(alloc, call)?;
    let mut core = opened_on(alloc, dev, SCRIPTS)?;
    let mut log = Log::new(alloc);
    let done = all(&mut core, alloc, &mut log);
    let _ = core.into_device();
    done?;
    Ok(String::from_utf8_lossy(alloc, log.lines.as_slice())?)
}

#[test]
fn tasks_that_are_out_are_refused(rt: HostRuntime) -> Result<(), Fail> {
    for (call, lines) in &CALLS {
        let told = told(rt.alloc(), *call)?;
        assert_eq!(&rt; told.as_str(), *lines, "{call}");
    }
    Ok(())
}

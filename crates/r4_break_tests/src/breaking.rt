//! A sync of a commit fails while two tasks are out, which then come back.

use crate::stepping::{Running, built, come, commit, seal};
use r4_build::Built;
use r4_core_testing::{Image, Log, ONE, opened, opened_on, run};
use r4_outside::MemoryDevice;
use std::alloc::Global;
use std::process::Abort;
use std::test::Fail;

// Makes three files of 16,384 bytes each, in tails: so a leaf with byte 8,192 of one of them has bytes of
// that file alone, and no script meets a cell of another one's atom.
const MADE: &str = "\
script\n\
create /a\n\
fill /a 0 16384 97\n\
create /b\n\
fill /b 0 16384 98\n\
create /c\n\
fill /c 0 16384 99\n\
commit\n";

const SCRIPTS: &str = "\
script\n\
write /a 8192 XY\n\
commit\n\
script\n\
write /b 8192 XY\n\
stat /b\n\
script\n\
write /c 8192 XY\n";

// The call of the device that fails, counted from the one that makes it, what is told, and what an other
// run reads then: the first sync of the commit, which comes before the journal header, and the sync
// behind the header, which may be there by then.
static CALLS: [(u64, &str, &str); 2] = [
    (
        63,
        "\
begin t1 s1\n\
done t1 s1 c1 ok\n\
ended t1\n\
sealed a1\n\
begin t2 s2\n\
begin t3 s3\n\
broken 46 1\n\
refused t0 s2 c1 reopen 46\n\
refused t0 s3 c1 reopen 46\n\
refused t0 s1 c2 reopen 46\n\
refused t0 s2 c2 reopen 46\n\
finished\n",
        "\
begin t1 s1\n\
done t1 s1 c2 data 6 616161616161\n\
done t1 s1 c3 data 6 626262626262\n\
done t1 s1 c4 data 6 636363636363\n\
ended t1\n\
finished\n",
    ),
    (
        65,
        "\
begin t1 s1\n\
done t1 s1 c1 ok\n\
ended t1\n\
sealed a1\n\
begin t2 s2\n\
begin t3 s3\n\
broken 48 1\n\
refused t0 s2 c1 reopen 48\n\
refused t0 s3 c1 reopen 48\n\
refused t0 s1 c2 reopen 48\n\
refused t0 s2 c2 reopen 48\n\
finished\n",
        "\
begin t1 s1\n\
done t1 s1 c2 data 6 616158596161\n\
done t1 s1 c3 data 6 626262626262\n\
done t1 s1 c4 data 6 636363636363\n\
ended t1\n\
finished\n",
    ),
];

const READS: &str = "\
script\n\
begin\n\
read /a 8190 6\n\
read /b 8190 6\n\
read /c 8190 6\n";

// The scripts run up to their end, with one commit in between.
fn run_and_commit(core: &mut Running, alloc: Global, log: &mut Log) -> Result<(), Fail> {
    run(core, alloc, ONE, log)?;
    seal(core, alloc)?;
    commit(core);
    run(core, alloc, ONE, log)
}

// A volume on which an earlier run made the files.
fn three_files(alloc: Global) -> Result<MemoryDevice, Fail> {
    let mut core = opened(alloc, Image::Fresh(1024), MADE)?;
    let mut log = Log::new(alloc);
    let done = run_and_commit(&mut core, alloc, &mut log);
    let dev = core.into_device();
    match done {
        Ok(()) => Ok(dev),
        Err(fault) => {
            drop(dev);
            Err(fault)
        }
    }
}

// The first script's command is done, and its atom is sealed.
fn first_sealed(core: &mut Running, alloc: Global) -> Result<(), Fail> {
    let first = built(core, alloc)?;
    come(core, alloc, first)?;
    seal(core, alloc)
}

// Two tasks go out.
fn two_out(core: &mut Running, alloc: Global) -> Result<(Built, Built), Fail> {
    let second = built(core, alloc)?;
    match built(core, alloc) {
        Ok(third) => Ok((second, third)),
        Err(fault) => {
            drop(second);
            Err(fault)
        }
    }
}

// They come back.
fn come_back(core: &mut Running, alloc: Global, out: (Built, Built)) -> Result<(), Fail> {
    let (second, third) = out;
    match come(core, alloc, second) {
        Ok(()) => come(core, alloc, third),
        Err(fault) => {
            drop(third);
            Err(fault)
        }
    }
}

// An atom is sealed, two tasks go out, its commit goes on to its end, and the tasks come back.
fn break_commit(core: &mut Running, alloc: Global) -> Result<(), Fail> {
    first_sealed(core, alloc)?;
    let out = two_out(core, alloc)?;
    commit(core);
    come_back(core, alloc, out)
}

// Then all else is done.
fn all(core: &mut Running, alloc: Global, log: &mut Log) -> Result<(), Fail> {
    break_commit(core, alloc)?;
    run(core, alloc, ONE, log)
}

// What is told where this call of the device fails, and the device.
fn broken(alloc: Global, call: u64, log: &mut Log) -> Result<MemoryDevice, Fail> {
    let mut dev = three_files(alloc)?;
    dev.fail(alloc, call)?;
    let mut core = opened_on(alloc, dev, SCRIPTS)?;
    let done = all(&mut core, alloc, log);
    let dev = core.into_device();
    match done {
        Ok(()) => Ok(dev),
        Err(fault) => {
            drop(dev);
            Err(fault)
        }
    }
}

// What is read of a device.
fn read(alloc: Global, dev: MemoryDevice, log: &mut Log) -> Result<(), Fail> {
    let mut core = opened_on(alloc, dev, READS)?;
    let done = run(&mut core, alloc, ONE, log);
    let _ = core.into_device();
    done
}

// What is told where this call of the device fails, and what is read then.
fn told(alloc: Global, call: u64) -> Result<(Log, Log), Fail> {
    let mut first = Log::new(alloc);
    let dev = broken(alloc, call, &mut first)?;
    let mut second = Log::new(alloc);
    read(alloc, dev, &mut second)?;
    Ok((first, second))
}

// Ends the test unless these lines were told.
fn is_told<X: Abort>(rt: &X, alloc: Global, log: &Log, lines: &str, call: u64) -> Result<(), Fail> {
    let told = String::from_utf8_lossy(alloc, log.lines.as_slice())?;
    assert_eq!(rt; told.as_str(), lines, "{call}");
    Ok(())
}

#[test]
fn tasks_that_went_out_behind_the_sealing_are_refused(rt: HostRuntime) -> Result<(), Fail> {
    for (call, lines, left) in &CALLS {
        let (first, second) = told(rt.alloc(), *call)?;
        is_told(&rt, rt.alloc(), &first, lines, *call)?;
        is_told(&rt, rt.alloc(), &second, left, *call)?;
    }
    Ok(())
}

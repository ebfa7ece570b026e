//! Tasks that come back after all of them were given back, or after another task changed their cells,
//! and without a change.

use crate::sending::{Running, built, built_of, sent};
use r4_base::NodeId;
use r4_build::Built;
use r4_core_testing::{
    After, Image, Log, ONE, Taken, Told, applied, give_back, next, opened, push_all, recall,
    refuse_memory, run, told,
};
use r4_matching::Differs;
use std::alloc::Global;
use std::test::Fail;

// A command for which there was no memory, and one behind it.
static STARVED: &str = "\
begin t1 s1\n\
refused t1 s1 c1 memory\n\
ended t1\n\
begin t2 s1\n\
done t2 s1 c2 absent\n\
ended t2\n\
finished\n";

// The task that goes out next is given back with all others, and built.
fn given_back(core: &mut Running, alloc: Global) -> Result<(Told, Built), Fail> {
    let task = sent(core, alloc)?;
    let first = told(&task);
    recall(core);
    let built = built_of(alloc, task)?;
    Ok((first, built))
}

// What was built of a task comes, and the task is gone.
fn gone(core: &mut Running, alloc: Global, built: Built) -> Result<Told, Fail> {
    match applied(core, alloc, built) {
        After::Gone(told) => Ok(told),
        _ => Err(Fail::from("a task that was given back is not gone")),
    }
}

// What tells the task that goes out next.
fn told_next(core: &mut Running, alloc: Global) -> Result<Told, Fail> {
    match next(core, alloc)? {
        Taken::Work(task) => Ok(told(&task)),
        _ => Err(Fail::from("no task goes out")),
    }
}

// A task that was given back is gone when it comes; then the same one goes out again.
fn recalled(core: &mut Running, alloc: Global) -> Result<(Told, Told, Told), Fail> {
    let (first, built) = given_back(core, alloc)?;
    let gone = gone(core, alloc, built)?;
    let again = told_next(core, alloc)?;
    Ok((first, gone, again))
}

#[test]
fn task_that_was_given_back_is_gone(rt: HostRuntime) -> Result<(), Fail> {
    let alloc = rt.alloc();
    let mut core = opened(alloc, Image::Fresh(64), "script\ncreate /a\n")?;
    let seen = recalled(&mut core, alloc);
    let _ = core.into_device();
    let (first, gone, again) = seen?;
    assert_eq!(&rt; gone, first);
    assert_eq!(&rt; again, first);
    Ok(())
}

// A command comes to the first script, and its task is given back and built.
fn earlier(core: &mut Running, alloc: Global) -> Result<Built, Fail> {
    push_all(core, alloc, "script\nwrite /a 0 x\n")?;
    built_too_soon(core, alloc)
}

// The task that goes out next is given back alone, and built.
fn built_too_soon(core: &mut Running, alloc: Global) -> Result<Built, Fail> {
    let task = sent(core, alloc)?;
    give_back(core, &task);
    built_of(alloc, task)
}

// The next task is done.
fn done(core: &mut Running, alloc: Global) -> Result<(), Fail> {
    let built = built(core, alloc)?;
    match applied(core, alloc, built) {
        After::Done => Ok(()),
        _ => Err(Fail::from("a task is not done")),
    }
}

// A command comes to the second script that changes another file of the leaf, and is done; then the
// first one goes out again.
fn change(core: &mut Running, alloc: Global) -> Result<(), Fail> {
    push_all(core, alloc, "script\nscript\nchmod /b 600\n")?;
    done(core, alloc)?;
    let _ = told_next(core, alloc)?;
    Ok(())
}

// What was built of a task comes: at which node it has another cell, and how it differs there.
fn stale(core: &mut Running, alloc: Global, built: Built) -> Result<(NodeId, Differs), Fail> {
    match applied(core, alloc, built) {
        After::Stale(node, differs) => Ok((node, differs)),
        _ => Err(Fail::from("a task is not stale")),
    }
}

// What was built of a task comes after its leaf changed, and the task went out again.
fn changed(core: &mut Running, alloc: Global) -> Result<(NodeId, Differs), Fail> {
    let built = earlier(core, alloc)?;
    match change(core, alloc) {
        Ok(()) => stale(core, alloc, built),
        Err(fault) => {
            drop(built);
            Err(fault)
        }
    }
}

// The first script makes two files, and then its next command comes.
fn made_and_changed(
    core: &mut Running,
    alloc: Global,
    log: &mut Log,
) -> Result<(NodeId, Differs), Fail> {
    run(core, alloc, ONE, log)?;
    changed(core, alloc)
}

#[test]
fn task_with_earlier_cells_is_stale(rt: HostRuntime) -> Result<(), Fail> {
    let alloc = rt.alloc();
    let scripts = "script\ncreate /a\ncreate /b\nscript\n";
    let mut core = opened(alloc, Image::Fresh(64), scripts)?;
    let mut log = Log::new(alloc);
    let seen = made_and_changed(&mut core, alloc, &mut log);
    let _ = core.into_device();
    let (node, differs) = seen?;
    assert_eq!(&rt; node, NodeId(23));

    // The low byte of the mode of `/b`: bodies begin at 28, and before its own stand 44 bytes of the
    // root's stat data, 102 of two entries, 44 of `/a` and two of a mask.
    let mode = Differs::Byte {
        at: 220,
        had: 0xa4,
        has: 0x80,
    };
    assert_eq!(&rt; differs, mode);
    Ok(())
}

// The task that goes out next comes back, since there was no memory for it.
fn starve(core: &mut Running, alloc: Global) -> Result<(), Fail> {
    let task = sent(core, alloc)?;
    refuse_memory(core, &task);
    Ok(())
}

// A task comes back for which there was no memory, and then all else is done.
fn starved(core: &mut Running, alloc: Global, log: &mut Log) -> Result<(), Fail> {
    starve(core, alloc)?;
    run(core, alloc, ONE, log)
}

#[test]
fn command_without_memory_is_refused(rt: HostRuntime) -> Result<(), Fail> {
    let alloc = rt.alloc();
    let mut core = opened(alloc, Image::Fresh(64), "script\ncreate /a\nstat /a\n")?;
    let mut log = Log::new(alloc);
    let done = starved(&mut core, alloc, &mut log);
    let _ = core.into_device();
    done?;
    let told = String::from_utf8_lossy(alloc, log.lines.as_slice())?;
    assert_eq!(&rt; told.as_str(), STARVED);
    Ok(())
}

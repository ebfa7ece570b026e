//! A command that came later is refused by itself.

use r4_base::ScriptNo;
use r4_core_testing::{
    Core, Image, Log, ONE, Wanted, is_refusable, opened, pending, push_all, refuse_next, run,
    run_pushed,
};
use r4_outside::{MemoryDevice, Unnamed};
use r4_turns::Pending;
use std::alloc::Global;
use std::test::Fail;

// Of two commands that come to a script, behind one that is answered.
static TOLD: &str = "\
begin t1 s2\n\
done t1 s2 c1 attr 40755 2 0 0 0 0 0 0\n\
ended t1\n\
finished\n\
refused t0 s2 c2 memory\n\
refused t0 s2 c3 memory\n\
finished\n";

// The next command of a script is refused. It is answered how it stood before and stands then.
fn refuse(
    core: &mut Core<MemoryDevice, Unnamed>,
    alloc: Global,
    script: ScriptNo,
) -> Result<(Pending, Pending), Fail> {
    core.make_room(
        alloc,
        Wanted {
            entries: 1,
            cells: 0,
            met: 0,
            claims: 0,
        },
    )?;
    if script.0 == 0 || script.0 > core.turns().count() {
        return Err(Fail::from("there is no such script"));
    }
    if !is_refusable(core, script) {
        return Err(Fail::from("the command may not be refused"));
    }
    let before = pending(core, script);
    refuse_next(core, script);
    Ok((before, pending(core, script)))
}

// One command is answered, and the next two are refused.
fn refused(
    core: &mut Core<MemoryDevice, Unnamed>,
    alloc: Global,
    log: &mut Log,
) -> Result<(Pending, Pending), Fail> {
    run_pushed(core, alloc, "script\nscript\nstat /\n", ONE, log)?;
    push_all(core, alloc, "script\nscript\ncreate /a\n")?;
    let stood = refuse(core, alloc, ScriptNo(2))?;
    push_all(core, alloc, "script\nscript\ncommit\n")?;
    refuse(core, alloc, ScriptNo(2))?;
    run(core, alloc, ONE, log)?;
    Ok(stood)
}

#[test]
fn next_command_is_refused(rt: HostRuntime) -> Result<(), Fail> {
    let alloc = rt.alloc();
    let mut core = opened(alloc, Image::Fresh(64), "script\nscript\n")?;
    let mut log = Log::new(alloc);
    let seen = refused(&mut core, alloc, &mut log);
    let _ = core.into_device();
    assert_eq!(&rt; seen?, (Pending::Next, Pending::Nothing));
    let told = String::from_utf8_lossy(alloc, log.lines.as_slice())?;
    assert_eq!(&rt; told.as_str(), TOLD);
    Ok(())
}

//! Commands that are added to a script.

use crate::same::same;
use r4_base::{Memory, ScriptNo};
use r4_content::Command;
use r4_script::{Commands, Job, Script, Scripts};
use r4_turns::{Pending, Turns};
use std::alloc::Global;
use std::process::Abort;
use std::test::Fail;

// A script without commands.
fn script(alloc: Global) -> Script {
    let commands = Commands::from_vec(Vec::new(alloc));
    Script { commands }
}

// A job of one script without commands.
fn job(alloc: Global) -> Result<Job, Memory> {
    let mut scripts = Vec::new(alloc);
    scripts.push(script(alloc))?;
    Ok(Job {
        scripts: Scripts::from_vec(scripts),
    })
}

// Its turns.
fn begun(alloc: Global) -> Result<Turns, Memory> {
    Turns::new(alloc, job(alloc)?)
}

// Its turns; once more where memory was refused.
fn begun_again(alloc: Global) -> Result<Turns, Memory> {
    match begun(alloc) {
        Ok(turns) => Ok(turns),
        Err(_refused) => begun(alloc),
    }
}

// Adds a command; once more where memory was refused, and then the script stands as before.
fn push<X: Abort>(rt: &X, alloc: Global, turns: &mut Turns) -> Result<(), Fail> {
    let one = ScriptNo(1);
    if turns.count() != 1 || turns.answered(one) > 0 {
        return Err(Fail::from("one script, of which nothing is answered"));
    }
    if !turns.is_answered_whole(one) {
        return Err(Fail::from("no command"));
    }
    if turns.push(alloc, one, Command::Commit).is_err() {
        let stood = turns.pending(one);
        same(rt, &stood, &Pending::Nothing, "the script, as before");
        let again = turns.push(alloc, one, Command::Commit).is_ok();
        same(rt, &again, &true, "added when it comes again");
    }
    same(rt, &turns.pending(one), &Pending::Next, "the script");
    Ok(())
}

#[test]
fn a_script_stays_where_memory_is_refused(rt: HostRuntime) -> Result<(), Fail> {
    let alloc = rt.alloc();
    let mut turns = begun_again(alloc)?;
    push(&rt, alloc, &mut turns)
}

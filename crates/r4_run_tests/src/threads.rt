//! Many scripts on many threads.

use r4_outside::{MemoryDevice, MemorySink};
use r4_run_testing::{LIST, Slow, call_at, fresh, printed};
use std::alloc::Global;
use std::process::Abort;
use std::sync::Wait;
use std::test::Fail;
use std::thread::Threads;

// So many scripts, each of which makes a file, writes it and commits.
const SCRIPTS: u32 = 6;

static WORDS: [&str; 4] = ["run", "image", "--threads", "16"];

static FOUR: [&str; 4] = ["run", "image", "--threads", "4"];

// The text of the scripts.
fn text(alloc: Global) -> Result<String, Fail> {
    let mut text = String::new(alloc);
    for i in 0..SCRIPTS {
        let script = format!(in alloc;
            "script\ncreate /f{i}\nwrite /f{i} 0 {i}\ncommit\nstat /f{i}\ncommit\n"
        )?;
        text.push_str(script.as_str())?;
    }
    Ok(text)
}

// How many lines begin so.
fn count(told: &[u8], word: &str) -> usize {
    told.split(|&byte| byte == b'\n')
        .filter(|line| line.starts_with(word.as_bytes()))
        .count()
}

// Ends the test unless so many lines begin so.
fn counts<X: Abort>(rt: &X, told: &[u8], word: &str, wanted: usize) {
    assert_eq!(rt; count(told, word), wanted);
}

// Runs the scripts on many threads.
fn runs_all<X: Abort + Threads + Wait + Sync>(
    rt: &X,
    alloc: Global,
    dev: &mut MemoryDevice,
) -> Result<(), Fail> {
    let scripts = text(alloc)?;
    let told = printed(rt, alloc, &WORDS, dev, scripts.as_str(), 0)?;
    counts(rt, &told, "acked", 12);
    counts(rt, &told, "done", 18);
    Ok(())
}

#[test]
fn many_threads_come_to_an_end(rt: HostRuntime) -> Result<(), Fail> {
    let mut dev = fresh(&rt, rt.alloc(), 256)?;
    runs_all(&rt, rt.alloc(), &mut dev)?;
    let listed = printed(&rt, rt.alloc(), &LIST, &mut dev, "", 0)?;
    counts(&rt, &listed, "f 0644 1 0 0 ", 6);
    Ok(())
}

// The status of a run of one command, at which one of four threads works long.
fn slow_status<X: Threads + Wait + Sync>(
    rt: &X,
    alloc: Global,
    dev: &mut MemoryDevice,
) -> Result<u8, Fail> {
    let mut out = MemorySink::new(alloc, 100)?;
    let gate = Slow::by(2000);
    let text = "script\ncreate /a\n";
    call_at(rt, alloc, &gate, &FOUR, dev, text, &mut out)
}

// While one thread works at the only command, the others find nothing to do and wait; they end, since
// whoever brings the task back wakes them.
#[test]
fn threads_that_wait_are_woken(rt: HostRuntime) -> Result<(), Fail> {
    for _ in 0..5u32 {
        let mut dev = fresh(&rt, rt.alloc(), 64)?;
        let status = slow_status(&rt, rt.alloc(), &mut dev)?;
        assert_eq!(&rt; status, 0);
    }
    Ok(())
}

//! The power is cut in the middle of a commit, as the words of the program ask for it.

use r4_devices::StopDevice;
use r4_outside::{MemoryDevice, MemorySink};
use r4_run_testing::{LIST, REPLAY, call, fresh, printed};
use std::alloc::Global;
use std::process::Abort;
use std::sync::Wait;
use std::test::Fail;
use std::thread::Threads;

const TEXT: &str = "script\ncreate /a\ncommit\n";

// What is told where the sixth of its ten writes fails, that of the journal header; where the seventh
// does, the first one of a home; where the ninth does, the last one of a home; and where none does.
const HEADER: &str = "\
begin t1 s1\n\
done t1 s1 c1 ok\n\
ended t1\n\
sealed a1\n\
broken 17 1\n\
refused t0 s1 c2 reopen 17\n\
device: clock 17 faults 1\n";

const FIRST_HOME: &str = "\
begin t1 s1\n\
done t1 s1 c1 ok\n\
ended t1\n\
sealed a1\n\
committed a1\n\
broken 19 1\n\
refused t0 s1 c2 reopen 19\n\
device: clock 19 faults 1\n";

const LAST_HOME: &str = "\
begin t1 s1\n\
done t1 s1 c1 ok\n\
ended t1\n\
sealed a1\n\
committed a1\n\
broken 21 1\n\
refused t0 s1 c2 reopen 21\n\
device: clock 21 faults 1\n";

const WHOLE: &str =
    "begin t1 s1\ndone t1 s1 c1 ok\nended t1\nsealed a1\ncommitted a1\nacked s1 t1\n";

// The volume before the commit and behind it.
const BEFORE: &str = "d 0755 2 0 0 0 /\n";

const AFTER: &str = "d 0755 2 0 0 1 /\nf 0644 1 0 0 0 /a\n";

/// The options of a run that is cut, what is printed, what replay prints behind it, and what is listed.
struct Cut {
    options: &'static [&'static str],
    told: &'static str,
    replayed: &'static str,
    listed: &'static str,
}

// At the header's write it is open which volume is left: the one behind the commit, where the first
// sector is written, which names the transaction.
static CUTS: [Cut; 12] = [
    Cut {
        options: &["--stop", "5"],
        told: HEADER,
        replayed: "replayed 0\n",
        listed: BEFORE,
    },
    Cut {
        options: &["--stop=5", "--tear=254"],
        told: HEADER,
        replayed: "replayed 0\n",
        listed: BEFORE,
    },
    Cut {
        options: &["--tear", "1", "--stop", "5"],
        told: HEADER,
        replayed: "replayed 1\n",
        listed: AFTER,
    },
    Cut {
        options: &["--stop=5", "--tear=170"],
        told: HEADER,
        replayed: "replayed 0\n",
        listed: BEFORE,
    },
    Cut {
        options: &["--stop=5", "--tear=85"],
        told: HEADER,
        replayed: "replayed 1\n",
        listed: AFTER,
    },
    Cut {
        options: &["--stop=5", "--tear=128"],
        told: HEADER,
        replayed: "replayed 0\n",
        listed: BEFORE,
    },
    Cut {
        options: &["--stop=5", "--tear=255"],
        told: HEADER,
        replayed: "replayed 1\n",
        listed: AFTER,
    },
    Cut {
        options: &["--stop=5", "--pick=1"],
        told: HEADER,
        replayed: "replayed 0\n",
        listed: BEFORE,
    },
    Cut {
        options: &["--pick=2", "--stop=5", "--tear=1"],
        told: HEADER,
        replayed: "replayed 1\n",
        listed: AFTER,
    },
    Cut {
        options: &["--stop=6"],
        told: FIRST_HOME,
        replayed: "replayed 1\n",
        listed: AFTER,
    },
    Cut {
        options: &["--stop=6", "--tear=170", "--pick=1"],
        told: FIRST_HOME,
        replayed: "replayed 1\n",
        listed: AFTER,
    },
    Cut {
        options: &["--threads=1", "--stop=8", "--pick=2"],
        told: LAST_HOME,
        replayed: "replayed 1\n",
        listed: AFTER,
    },
];

// The words that run the scripts with these options.
fn words(alloc: Global, options: &[&'static str]) -> Result<Vec<&'static str>, Fail> {
    let mut words = Vec::new(alloc);
    words.push("run")?;
    words.push("image")?;
    for option in options {
        words.push(*option)?;
    }
    Ok(words)
}

// Whether the program prints just this, and has this status.
fn prints<X: Threads + Wait + Sync>(
    rt: &X,
    alloc: Global,
    words: &[&str],
    dev: &mut MemoryDevice,
    text: &str,
    status: u8,
    wanted: &str,
) -> Result<bool, Fail> {
    let told = printed(rt, alloc, words, dev, text, status)?;
    Ok(told.as_slice() == wanted.as_bytes())
}

// What a cut left is replayed and listed as it says.
fn is_left<X: Threads + Wait + Sync>(
    rt: &X,
    alloc: Global,
    dev: &mut MemoryDevice,
    cut: &Cut,
) -> Result<bool, Fail> {
    let replayed = prints(rt, alloc, &REPLAY, dev, "", 0, cut.replayed)?;
    let listed = prints(rt, alloc, &LIST, dev, "", 0, cut.listed)?;
    Ok(replayed && listed)
}

// A cut is as it says.
fn holds<X: Threads + Wait + Sync>(rt: &X, alloc: Global, cut: &Cut) -> Result<bool, Fail> {
    let mut dev = fresh(rt, alloc, 64)?;
    let words = words(alloc, cut.options)?;
    let told = prints(rt, alloc, &words, &mut dev, TEXT, 6, cut.told)?;
    Ok(is_left(rt, alloc, &mut dev, cut)? && told)
}

#[test]
fn power_is_cut(rt: HostRuntime) -> Result<(), Fail> {
    for (row, cut) in CUTS.iter().enumerate() {
        assert!(&rt; holds(&rt, rt.alloc(), cut)?, "row {row}");
    }
    Ok(())
}

// Ends the test unless the program goes well and prints just this.
fn tells<X: Abort + Threads + Wait + Sync>(
    rt: &X,
    alloc: Global,
    words: &[&str],
    dev: &mut MemoryDevice,
    text: &str,
    wanted: &str,
) -> Result<(), Fail> {
    let told = printed(rt, alloc, words, dev, text, 0)?;
    assert_eq!(rt; told.as_slice(), wanted.as_bytes());
    Ok(())
}

// A stop behind the last write is none.
#[test]
fn stop_that_is_not_reached_changes_nothing(rt: HostRuntime) -> Result<(), Fail> {
    let mut dev = fresh(&rt, rt.alloc(), 64)?;
    let words = ["run", "image", "--stop=10", "--tear=255", "--pick=1"];
    tells(&rt, rt.alloc(), &words, &mut dev, TEXT, WHOLE)?;
    tells(&rt, rt.alloc(), &LIST, &mut dev, "", AFTER)
}

// A replay on a device that stops behind so many writes.
fn replay_stopped<X: Threads + Wait + Sync>(
    rt: &X,
    alloc: Global,
    dev: MemoryDevice,
    writes: u64,
) -> Result<MemoryDevice, Fail> {
    let Ok(mut dev) = StopDevice::new(alloc, dev, writes, 170, None) else {
        return Err(Fail::from("no memory for a torn write"));
    };
    let mut out = MemorySink::new(alloc, 100)?;
    let _ = call(rt, alloc, &REPLAY, &mut dev, "", &mut out)?;
    Ok(dev.into_inner())
}

// What a cut at the first home leaves.
fn cut_at_home<X: Threads + Wait + Sync>(rt: &X, alloc: Global) -> Result<MemoryDevice, Fail> {
    let mut dev = fresh(rt, alloc, 64)?;
    let words = ["run", "image", "--stop", "6", "--tear", "170"];
    let _ = printed(rt, alloc, &words, &mut dev, TEXT, 6)?;
    Ok(dev)
}

// Ends the test unless the volume behind the commit is listed.
fn lists_after<X: Abort + Threads + Wait + Sync>(
    rt: &X,
    alloc: Global,
    dev: &mut MemoryDevice,
    writes: u64,
) -> Result<(), Fail> {
    let listed = printed(rt, alloc, &LIST, dev, "", 0)?;
    assert_eq!(rt; listed.as_slice(), AFTER.as_bytes(), "{writes}");
    Ok(())
}

// Stops a replay behind each of its four writes, one after the other.
fn stop_each<X: Abort + Threads + Wait + Sync>(
    rt: &X,
    alloc: Global,
    dev: MemoryDevice,
) -> Result<MemoryDevice, Fail> {
    let mut dev = dev;
    for writes in 0..4u64 {
        dev = replay_stopped(rt, alloc, dev, writes)?;
        lists_after(rt, alloc, &mut dev, writes)?;
    }
    Ok(dev)
}

// A replay behind the cut at the first home is stopped behind each of its four writes, one after the
// other, and then goes through.
#[test]
fn replays_are_stopped_too(rt: HostRuntime) -> Result<(), Fail> {
    let left = cut_at_home(&rt, rt.alloc())?;
    let mut dev = stop_each(&rt, rt.alloc(), left)?;
    tells(&rt, rt.alloc(), &REPLAY, &mut dev, "", "replayed 1\n")?;
    tells(&rt, rt.alloc(), &LIST, &mut dev, "", AFTER)
}

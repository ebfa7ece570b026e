//! The power is cut while a large file is made and while a second transaction writes it.

use crate::large::{Body, has_bytes, shows};
use r4_outside::MemoryDevice;
use r4_run_testing::{LIST, REPLAY, fresh, printed};
use std::alloc::Global;
use std::process::Abort;
use std::sync::Wait;
use std::test::Fail;
use std::thread::Threads;

const TEXT: &str = "\
script\n\
begin\n\
create /f\n\
fill /f 0 20000 97\n\
end\n\
commit\n\
fill /f 0 40000 98\n\
commit\n";

// What a run tells whose device stops in the middle of the first part of the second commit: the
// clock counts the 10 writes and syncs of mkfs, 21 of the first commit and 4 of the second.
const CUT: &str = "\
begin t1 s1\n\
done t1 s1 c2 ok\n\
done t1 s1 c3 ok\n\
ended t1\n\
sealed a1\n\
committed a1\n\
acked s1 t1\n\
begin t2 s1\n\
done t2 s1 c6 ok\n\
ended t2\n\
sealed a2\n\
broken 35 1\n\
refused t0 s1 c7 reopen 35\n\
device: clock 35 faults 1\n";

const EMPTY: &str = "d 0755 2 0 0 0 /\n";

static FIRST: Body = Body {
    path: "/f",
    line: "f 0644 1 0 0 20000 /f\n",
    pieces: &[("a", 20_000)],
};

static SECOND: Body = Body {
    path: "/f",
    line: "f 0644 1 0 0 40000 /f\n",
    pieces: &[("b", 40_000)],
};

// How many writes come before that of the journal header in each of the two commits. The first one
// has 5 blocks of the file, which are placed, 4 copies of the twig, the leaf, the superblock and the
// bitmap, a record and a head; behind its header 4 homes and the footer. The second has 5 blocks that
// are placed and 9 copies: of those four and the 5 blocks that stood; then a record and a head.
static HEADERS: [u64; 2] = [11, 33];

// How many writes both commits make: behind the second header 9 homes and the footer.
const WRITES: u64 = 44;

// How many commits are left of a run that stops behind so many writes: those whose header was
// written, or torn with its first sector, which names the transaction.
fn commits_left(writes: u64, is_first_sector_written: bool) -> usize {
    HEADERS
        .iter()
        .filter(|header| **header < writes || (**header == writes && is_first_sector_written))
        .count()
}

// Runs the text on a fresh volume, on a device that stops behind so many writes.
fn stopped<X: Threads + Wait + Sync>(
    rt: &X,
    alloc: Global,
    writes: u64,
    tear: &str,
) -> Result<MemoryDevice, Fail> {
    let mut dev = fresh(rt, alloc, 64)?;
    let stop = format!(in alloc; "--stop={writes}")?;
    let words = ["run", "image", stop.as_str(), tear];
    let status = if writes < WRITES { 6 } else { 0 };
    let _ = printed(rt, alloc, &words, &mut dev, TEXT, status)?;
    Ok(dev)
}

// Whether the volume behind so many commits is left.
fn is_left<X: Threads + Wait + Sync>(
    rt: &X,
    alloc: Global,
    dev: &mut MemoryDevice,
    commits: usize,
) -> Result<bool, Fail> {
    let _ = printed(rt, alloc, &REPLAY, dev, "", 0)?;
    match commits {
        0 => is_empty(rt, alloc, dev),
        1 => has_bytes(rt, alloc, dev, &FIRST),
        _ => has_bytes(rt, alloc, dev, &SECOND),
    }
}

// Whether the volume has the root alone.
fn is_empty<X: Threads + Wait + Sync>(
    rt: &X,
    alloc: Global,
    dev: &mut MemoryDevice,
) -> Result<bool, Fail> {
    let listed = printed(rt, alloc, &LIST, dev, "", 0)?;
    Ok(listed.as_slice() == EMPTY.as_bytes())
}

// Ends the test unless whole transactions are left behind so many writes.
fn leaves_whole_ones<X: Abort + Threads + Wait + Sync>(
    rt: &X,
    alloc: Global,
    writes: u64,
) -> Result<(), Fail> {
    let is_first = writes % 2 == 1;
    let tear = if is_first { "--tear=1" } else { "--tear=254" };
    let mut dev = stopped(rt, alloc, writes, tear)?;
    let commits = commits_left(writes, is_first);
    assert!(rt; is_left(rt, alloc, &mut dev, commits)?, "{writes}");
    Ok(())
}

#[test]
fn whole_transactions_are_left_of_large_files(rt: HostRuntime) -> Result<(), Fail> {
    for writes in 0..=WRITES {
        leaves_whole_ones(&rt, rt.alloc(), writes)?;
    }
    Ok(())
}

// Half of what a second transaction writes of a file is there, and the first one's file is left.
#[test]
fn half_of_a_second_transaction_is_nothing(rt: HostRuntime) -> Result<(), Fail> {
    let mut dev = fresh(&rt, rt.alloc(), 64)?;
    let words = ["run", "image", "--stop", "20"];
    let told = printed(&rt, rt.alloc(), &words, &mut dev, TEXT, 6)?;
    assert_eq!(&rt; told.as_slice(), CUT.as_bytes());
    shows(&rt, rt.alloc(), &REPLAY, &mut dev, "replayed 0\n")?;
    assert!(&rt; has_bytes(&rt, rt.alloc(), &mut dev, &FIRST)?);
    Ok(())
}

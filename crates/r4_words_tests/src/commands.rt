//! Words, and the commands that they spell.

use crate::same::same;
use r4_words::read_words;
use std::alloc::Global;
use std::process::Abort;
use std::test::Fail;

/// The words, each with memory of its own.
pub fn owned(alloc: Global, words: &[&str]) -> Result<Vec<String>, Fail> {
    let mut all = Vec::new(alloc);
    for word in words {
        all.push(String::from_str(alloc, word)?)?;
    }
    Ok(all)
}

// Words of a command line, and the command that they spell.
static SPELLED: [(&[&str], &str); 23] = [
    (&["replay", "i"], "Some(Offline(Replay))"),
    (&["check", "i"], "Some(Offline(Check))"),
    (&["mkfs", "i"], "Some(Offline(Mkfs { label: [] }))"),
    (
        &["mkfs", "i", "--label", "ab"],
        "Some(Offline(Mkfs { label: [97, 98] }))",
    ),
    (
        &["mkfs", "i", "--label=ab"],
        "Some(Offline(Mkfs { label: [97, 98] }))",
    ),
    (&["list", "i"], "Some(Offline(List { path: [47] }))"),
    (
        &["list", "i", "/a"],
        "Some(Offline(List { path: [47, 97] }))",
    ),
    (
        &["run", "i"],
        "Some(Run(RunWords { threads: 1, stop: None, seed: None }))",
    ),
    (
        &["run", "i", "--threads", "1"],
        "Some(Run(RunWords { threads: 1, stop: None, seed: None }))",
    ),
    (
        &["run", "i", "--threads", "9"],
        "Some(Run(RunWords { threads: 9, stop: None, seed: None }))",
    ),
    (
        &["run", "i", "--threads=1"],
        "Some(Run(RunWords { threads: 1, stop: None, seed: None }))",
    ),
    (
        &["run", "i", "--threads=16"],
        "Some(Run(RunWords { threads: 16, stop: None, seed: None }))",
    ),
    (
        &["run", "i", "--threads", "00000000000000000016"],
        "Some(Run(RunWords { threads: 16, stop: None, seed: None }))",
    ),
    (
        &["run", "i", "--threads=00000000000000000001"],
        "Some(Run(RunWords { threads: 1, stop: None, seed: None }))",
    ),
    (
        &["run", "i", "--stop", "0"],
        "Some(Run(RunWords { threads: 1, stop: Some(StopWords { writes: 0, tear: 0, pick: None }), seed: None }))",
    ),
    (
        &["run", "i", "--stop=18446744073709551615"],
        "Some(Run(RunWords { threads: 1, \
         stop: Some(StopWords { writes: 18446744073709551615, tear: 0, pick: None }), seed: None }))",
    ),
    (
        &["run", "i", "--tear", "255", "--threads=2", "--stop", "7"],
        "Some(Run(RunWords { threads: 2, stop: Some(StopWords { writes: 7, tear: 255, pick: None }), seed: None }))",
    ),
    (
        &["run", "i", "--pick=0", "--stop=7"],
        "Some(Run(RunWords { threads: 1, stop: Some(StopWords { writes: 7, tear: 0, pick: Some(0) }), seed: None }))",
    ),
    (
        &[
            "run",
            "i",
            "--pick",
            "18446744073709551615",
            "--tear=000254",
            "--stop=1",
            "--threads",
            "16",
        ],
        "Some(Run(RunWords { threads: 16, stop: Some(StopWords { writes: 1, tear: 254, \
         pick: Some(18446744073709551615) }), seed: None }))",
    ),
    (
        &[
            "run",
            "i",
            "--stop",
            "1",
            "--threads",
            "3",
            "--pick",
            "2",
            "--tear",
            "1",
        ],
        "Some(Run(RunWords { threads: 3, stop: Some(StopWords { writes: 1, tear: 1, pick: Some(2) }), seed: None }))",
    ),
    (
        &["run", "i", "--gen", "7"],
        "Some(Run(RunWords { threads: 1, stop: None, seed: Some(7) }))",
    ),
    (
        &["run", "i", "--gen=18446744073709551615", "--threads=4"],
        "Some(Run(RunWords { threads: 4, stop: None, seed: Some(18446744073709551615) }))",
    ),
    (
        &["run", "i", "--tear=1", "--gen", "00", "--stop", "2"],
        "Some(Run(RunWords { threads: 1, stop: Some(StopWords { writes: 2, tear: 1, pick: None }), \
         seed: Some(0) }))",
    ),
];

// Words that spell no command.
static FAULTY: [&[&str]; 86] = [
    &[],
    &["check"],
    &["check", "i", "/"],
    &["replay"],
    &["replay", ""],
    &["replay", "-x"],
    &["replay", "img", "more"],
    &["replay", "img", "--threads", "1"],
    &["replay", "img", "--"],
    &["mkfs", ""],
    &["mkfs", "img", "--label"],
    &["mkfs", "img", "--label", ""],
    &["mkfs", "img", "--label=-x"],
    &["mkfs", "img", "--label=a\0b"],
    &["mkfs", "img", "--label", "12345678901234567"],
    &["mkfs", "img", "--label", "a", "--label=b"],
    &["mkfs", "img", "--threads=1"],
    &["list", "img", "a"],
    &["list", "img", "/a", "/b"],
    &["list", "img", ""],
    &["run"],
    &["run", ""],
    &["run", "--threads", "1"],
    &["run", "--threads=1"],
    &["run", "i", "x"],
    &["run", "i", "1"],
    &["run", "i", "--threads", "0"],
    &["run", "i", "--threads=0"],
    &["run", "i", "--threads", "17"],
    &["run", "i", "--threads=17"],
    &["run", "i", "--threads"],
    &["run", "i", "--threads="],
    &["run", "i", "--threads", ""],
    &["run", "i", "--threads=-1"],
    &["run", "i", "--threads", "-1"],
    &["run", "i", "--threads", "+1"],
    &["run", "i", "--threads", "1 "],
    &["run", "i", "--threads", "0x1"],
    &["run", "i", "--threads", "1", "--threads", "1"],
    &["run", "i", "--threads=1", "--threads=2"],
    &["run", "i", "--threads", "1", "x"],
    &["run", "i", "--threads", "99999999999999999999"],
    &["run", "i", "--threads", "000000000000000000001"],
    &["run", "i", "--threads=000000000000000000016"],
    &["run", "i", "--thread", "1"],
    &["run", "i", "--tear", "1"],
    &["run", "i", "--pick=1"],
    &["run", "i", "--tear=1", "--pick=1", "--threads=2"],
    &["run", "i", "--stop"],
    &["run", "i", "--stop="],
    &["run", "i", "--stop=1="],
    &["run", "i", "--stop", "=1"],
    &["run", "i", "--stop", ""],
    &["run", "i", "--stop", "-1"],
    &["run", "i", "--stop", "18446744073709551616"],
    &["run", "i", "--stop=000000000000000000001"],
    &["run", "i", "--stop=1", "--stop=1"],
    &["run", "i", "--stop", "1", "--stop=1"],
    &["run", "i", "--stop=1", "--tear"],
    &["run", "i", "--stop=1", "--tear=256"],
    &["run", "i", "--stop=1", "--tear", "1", "--tear=1"],
    &["run", "i", "--stop=1", "--pick=18446744073709551616"],
    &["run", "i", "--stop=1", "--pick=1", "--pick", "1"],
    &["run", "i", "--stop=1", "--threads=0"],
    &["run", "i", "--stop=1", "1"],
    &["run", "i", "--stop", "--tear", "1"],
    &["mkfs", "i", "--stop=1"],
    &["run", "i", "--gen"],
    &["run", "i", "--gen="],
    &["run", "i", "--gen", ""],
    &["run", "i", "--gen", "x"],
    &["run", "i", "--gen=-1"],
    &["run", "i", "--gen", "18446744073709551616"],
    &["run", "i", "--gen=000000000000000000001"],
    &["run", "i", "--gen=1", "--gen", "1"],
    &["run", "i", "--gen", "1", "2"],
    &["run", "i", "--gen=1", "--pick=1"],
    &["run", "i", "--seed=1"],
    &["replay", "i", "--gen=1"],
    &["run", "i", "--"],
    &["run", "i", "-h"],
    &["run", "i", "--help"],
    &["--"],
    &["-h"],
    &["--help"],
    &["frob", "img"],
];

// Looks whether the words spell this.
fn spells<X: Abort>(
    rt: &X,
    alloc: Global,
    words: &[&str],
    wanted: &str,
    row: usize,
) -> Result<(), Fail> {
    let owned = owned(alloc, words)?;
    let command = read_words(&owned);
    let text = format!(in alloc; "{command:?}")?;
    let what = format!(in alloc; "row {row}")?;
    same(rt, &text.as_str(), &wanted, what.as_str());
    Ok(())
}

#[test]
fn commands_are_read(rt: HostRuntime) -> Result<(), Fail> {
    for (row, &(words, wanted)) in SPELLED.iter().enumerate() {
        spells(&rt, rt.alloc(), words, wanted, row)?;
    }
    Ok(())
}

#[test]
fn faulty_words_are_refused(rt: HostRuntime) -> Result<(), Fail> {
    for (row, &words) in FAULTY.iter().enumerate() {
        spells(&rt, rt.alloc(), words, "None", row)?;
    }
    Ok(())
}

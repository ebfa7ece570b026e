//! The replies to commands, and what they leave.

use crate::contents::{perform, put};
use r4_base::{Attr, Key, Memory, Oid, ScriptNo, TxnNo, Value};
use r4_content::{Command, Reply, Seen};
use r4_script::{Job, parse};
use r4_trace::{Entry, line};
use std::alloc::Global;
use std::process::Abort;
use std::test::Fail;

// The first number of an object that is made; the one in row n gets n more.
const FIRST: u64 = 65_536;

fn attr(mode: u16, nlink: u32) -> Attr {
    Attr {
        mode,
        nlink,
        size: 0,
        uid: 0,
        gid: 0,
        atime: 0,
        mtime: 0,
        ctime: 0,
        bytes: 0,
    }
}

// The content of an empty volume.
fn empty(alloc: Global) -> Result<Seen, Memory> {
    let mut parts = Vec::new(alloc);
    let root = Key::stat(41, 0, Oid(42));
    put(&mut parts, root, Value::Attr(attr(0o40755, 2)))?;
    Ok(Seen { parts })
}

// The job of one command.
fn job_of(alloc: Global, text: &str) -> Result<Job, Fail> {
    let mut script = Vec::from_slice(alloc, b"script\n")?;
    script.extend_from_slice(text.as_bytes())?;
    match parse(alloc, script.as_slice()) {
        Ok(job) => Ok(job),
        Err(_) => Err(Fail::from("the command is not read")),
    }
}

// The one command of a job.
fn command_of(job: &Job) -> Option<&Command> {
    match job.scripts.as_slice() {
        [script] => match script.commands.as_slice() {
            [command] => Some(command),
            _ => None,
        },
        _ => None,
    }
}

// The reply to the one command of a text.
fn reply_to(alloc: Global, seen: &mut Seen, text: &str, oid: Oid) -> Result<Reply, Fail> {
    let job = job_of(alloc, text)?;
    match command_of(&job) {
        Some(command) => perform(alloc, seen, command, oid),
        None => Err(Fail::from("no command")),
    }
}

// A command that is done, with this reply.
fn done(reply: Reply) -> Entry {
    Entry::Done {
        txn: TxnNo(1),
        script: ScriptNo(1),
        index: 1,
        command: Command::Commit,
        reply,
    }
}

// The line of an entry.
fn line_of(alloc: Global, entry: &Entry) -> Result<Vec<u8>, Memory> {
    let mut out = Vec::new(alloc);
    line(alloc, entry, &mut out)?;
    Ok(out)
}

// The line of a command that is done.
fn line_of_done(alloc: Global, reply: Reply) -> Result<Vec<u8>, Memory> {
    line_of(alloc, &done(reply))
}

// The line that tells a share of a reply.
fn line_of_share(alloc: Global, reply: &Reply) -> Result<Vec<u8>, Memory> {
    line_of_done(alloc, reply.share()?)
}

// Does the command of a row. The line that tells its reply, as its share.
fn told(alloc: Global, seen: &mut Seen, row: usize, text: &str) -> Result<Vec<u8>, Fail> {
    let reply = reply_to(alloc, seen, text, Oid(FIRST.wrapping_add(row as u64)))?;
    Ok(line_of_share(alloc, &reply)?)
}

// What a line tells behind its numbers, without its end.
fn reply_in(line: &[u8]) -> Option<&[u8]> {
    line.strip_prefix(b"done t1 s1 c1 ".as_slice())?
        .strip_suffix(b"\n".as_slice())
}

// Does the command of a row, and looks at the line that tells its reply.
fn answers<X: Abort>(
    rt: &X,
    alloc: Global,
    seen: &mut Seen,
    row: usize,
    (text, reply): (&str, &str),
) -> Result<(), Fail> {
    let line = told(alloc, seen, row, text)?;
    assert_eq!(rt; reply_in(line.as_slice()), Some(reply.as_bytes()), "{text}");
    Ok(())
}

// Commands on an empty volume, with their replies: of two refusals that which comes first.
static COMMANDS: [(&str, &str); 88] = [
    ("names /", "names 0"),
    ("stat /", "attr 40755 2 0 0 0 0 0 0"),
    ("create /f", "ok"),
    ("create /f", "exists"),
    ("create /", "exists"),
    ("create /..", "name"),
    ("create /f/x", "notdir"),
    ("create /q/x", "absent"),
    ("mkdir /d", "ok"),
    ("stat /", "attr 40755 3 2 0 0 0 0 0"),
    ("create /d/x", "ok"),
    ("names /d", "names 1 x"),
    ("names /f", "notdir"),
    // Bytes, gaps and ends.
    ("write /f 0 abc", "ok"),
    ("write /f 5 z", "ok"),
    ("read /f 0 9", "data 6 61626300007a"),
    ("write /f 100 ", "ok"),
    ("stat /f", "attr 100644 1 6 0 0 0 0 0"),
    ("truncate /f 2", "ok"),
    ("truncate /f 4", "ok"),
    ("read /f 1 2", "data 2 6200"),
    ("read /f 4 1", "data 0"),
    ("fill /f 1 4 255", "ok"),
    ("read /f 0 9", "data 5 61ffffffff"),
    ("write /d 0 x", "isdir"),
    ("read /d 0 1", "isdir"),
    ("truncate /d 0", "isdir"),
    ("write /f 1073741824 x", "toobig"),
    ("truncate /f 1073741825", "toobig"),
    ("write /f/x 1073741824 x", "notdir"),
    // Links.
    ("link /f /d/g", "ok"),
    ("link /f /d/g", "exists"),
    ("link /d /e", "isdir"),
    ("link /d /f", "isdir"),
    ("link /q /f", "absent"),
    ("link /f /..", "name"),
    ("stat /d/g", "attr 100644 2 5 0 0 0 0 0"),
    ("unlink /d/g", "ok"),
    ("stat /f", "attr 100644 1 5 0 0 0 0 0"),
    ("unlink /d", "isdir"),
    ("unlink /", "isdir"),
    ("unlink /d/g", "absent"),
    // Directories that go.
    ("rmdir /d", "notempty"),
    ("rmdir /f", "notdir"),
    ("rmdir /", "loop"),
    ("rmdir /q", "absent"),
    // Entries that move.
    ("rename /d /d/k", "loop"),
    ("rename /d /d/x/k", "notdir"),
    ("rename /d /d", "ok"),
    ("rename /f /f", "ok"),
    ("rename / /e", "loop"),
    ("rename /f /", "loop"),
    ("rename /q /", "loop"),
    ("rename /q /f", "absent"),
    ("rename /d/x /y", "ok"),
    ("names /d", "names 0"),
    ("names /", "names 3 d f y"),
    ("link /f /g", "ok"),
    ("rename /f /g", "ok"),
    ("stat /f", "attr 100644 2 5 0 0 0 0 0"),
    ("unlink /g", "ok"),
    ("rename /f /y", "ok"),
    ("read /y 0 1", "data 1 61"),
    ("stat /f", "absent"),
    ("rename /d /y", "notdir"),
    ("rename /y /d", "isdir"),
    ("mkdir /e", "ok"),
    ("create /e/x", "ok"),
    ("rename /d /e", "notempty"),
    ("rename /e /d", "ok"),
    ("names /d", "names 1 x"),
    ("mkdir /d/k", "ok"),
    ("rename /d/k /k", "ok"),
    ("stat /d", "attr 40755 2 1 0 0 0 0 0"),
    ("stat /", "attr 40755 4 3 0 0 0 0 0"),
    // Attributes.
    ("chmod /y 7777", "ok"),
    ("chown /y 4294967295 7", "ok"),
    ("times /y 1 2 4294967295", "ok"),
    ("stat /y", "attr 107777 1 5 4294967295 7 1 2 4294967295"),
    ("chmod /q 0", "absent"),
    // Two names of one key.
    ("create /aaaaaaaaaaaaaaaxxxxxxxca", "ok"),
    (
        "create /aaaaaaaaaaaaaaaxxxxxxxbl",
        "clash aaaaaaaaaaaaaaaxxxxxxxca",
    ),
    (
        "rename /y /aaaaaaaaaaaaaaaxxxxxxxbl",
        "clash aaaaaaaaaaaaaaaxxxxxxxca",
    ),
    ("stat /aaaaaaaaaaaaaaaxxxxxxxbl", "absent"),
    // And what is left of the rest: keys of long names are behind those of short ones.
    ("unlink /y", "ok"),
    ("unlink /d/x", "ok"),
    ("rmdir /d", "ok"),
    ("names /", "names 2 k aaaaaaaaaaaaaaaxxxxxxxca"),
];

#[test]
fn commands_are_answered(rt: HostRuntime) -> Result<(), Fail> {
    let alloc = rt.alloc();
    let mut seen = empty(alloc)?;
    for (row, &command) in COMMANDS.iter().enumerate() {
        answers(&rt, alloc, &mut seen, row, command)?;
    }
    // Of the objects that are gone nothing is left: two entries, and the stat data of three objects.
    assert_eq!(&rt; seen.parts.len(), 5);
    Ok(())
}

// Commands on a root, a file and a directory that have the most links.
static FULL: [(&str, &str); 9] = [
    ("create /f", "ok"),
    ("mkdir /d", "ok"),
    ("mkdir /e", "ok"),
    ("link /f /g", "links"),
    ("link /f /q/g", "absent"),
    ("mkdir /d/x", "links"),
    ("rename /e /d/x", "links"),
    ("create /d/x", "ok"),
    ("rename /f /d/x", "ok"),
];

#[test]
fn links_have_a_limit(rt: HostRuntime) -> Result<(), Fail> {
    let alloc = rt.alloc();
    let mut seen = empty(alloc)?;
    for (row, &command) in FULL.iter().enumerate() {
        if row == 3 {
            let file = Key::stat(42, 0x66 << 48, Oid(FIRST));
            put(&mut seen.parts, file, Value::Attr(attr(0o100_644, 65_535)))?;
            let dir = Key::stat(42, 0x64 << 48, Oid(FIRST + 1));
            put(&mut seen.parts, dir, Value::Attr(attr(0o40755, 65_535)))?;
        }
        answers(&rt, alloc, &mut seen, row, command)?;
    }
    Ok(())
}

// A byte at the key of an entry of a directory, which no volume has, is no entry.
#[test]
fn other_values_are_no_entries(rt: HostRuntime) -> Result<(), Fail> {
    let alloc = rt.alloc();
    let mut seen = empty(alloc)?;
    answers(&rt, alloc, &mut seen, 0, ("mkdir /d", "ok"))?;
    let key = Key {
        el: [FIRST * 16, 7, 0, 0],
    };
    put(&mut seen.parts, key, Value::Byte(1))?;
    answers(&rt, alloc, &mut seen, 1, ("names /d", "names 0"))?;
    answers(&rt, alloc, &mut seen, 2, ("mkdir /e", "ok"))?;
    answers(&rt, alloc, &mut seen, 3, ("rename /e /d", "ok"))?;
    answers(&rt, alloc, &mut seen, 4, ("rmdir /d", "ok"))?;
    Ok(())
}

// Are there no numbers for what a command with this one makes?
fn has_no_number(alloc: Global, seen: &mut Seen, oid: u64) -> Result<bool, Fail> {
    let reply = reply_to(alloc, seen, "create /f", Oid(oid))?;
    Ok(matches!(reply, Reply::Oids))
}

#[test]
fn numbers_end(rt: HostRuntime) -> Result<(), Fail> {
    let alloc = rt.alloc();
    let mut seen = empty(alloc)?;
    let last = has_no_number(alloc, &mut seen, (1 << 60) - 1)?;
    let before = has_no_number(alloc, &mut seen, (1 << 60) - 2)?;
    assert_eq!(&rt; (last, before, seen.parts.len()), (true, false, 3));
    Ok(())
}

// Which of the commands without a path the copy of one is, by their order.
fn copied(alloc: Global, command: &Command) -> Result<u8, Memory> {
    Ok(match command.copy(alloc)? {
        Command::Begin => 0,
        Command::End => 1,
        Command::Commit => 2,
        _ => 3,
    })
}

#[test]
fn commands_without_a_path_are_copied(rt: HostRuntime) -> Result<(), Fail> {
    let alloc = rt.alloc();
    let copies = [
        copied(alloc, &Command::Begin)?,
        copied(alloc, &Command::End)?,
        copied(alloc, &Command::Commit)?,
    ];
    assert_eq!(&rt; copies, [0, 1, 2]);
    let facts = [
        Command::End.is_job(&Command::End, Oid(1)),
        Command::End.is_job(&Command::Commit, Oid(1)),
        Command::Begin.makes_object(),
    ];
    assert_eq!(&rt; facts, [true, false, false]);
    Ok(())
}

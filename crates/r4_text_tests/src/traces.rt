//! Lines of entries, and a trace that grows.

use r4_base::{AtomNo, Attr, BlockNo, Memory, NodeId, ScriptNo, TxnNo};
use r4_content::{Bytes, Command, Name, Names, Reply};
use r4_trace::{Entry, Trace, line};
use std::alloc::Global;
use std::process::Abort;
use std::test::Fail;

// A refusal of the second command of script 3, in transaction 7.
fn refused(reply: Reply) -> Entry {
    Entry::Refused {
        txn: TxnNo(7),
        script: ScriptNo(3),
        index: 2,
        reply,
    }
}

// The line of an entry.
fn line_of(alloc: Global, entry: &Entry) -> Result<Vec<u8>, Memory> {
    let mut out = Vec::new(alloc);
    line(alloc, entry, &mut out)?;
    Ok(out)
}

// Ends the test unless a line is this text.
fn is_line<X: Abort>(rt: &X, got: &[u8], text: &str) {
    assert_eq!(rt; got, text.as_bytes(), "{text}");
}

// Bytes that several owners have.
fn bytes(alloc: Global, text: &[u8]) -> Result<Bytes, Memory> {
    Bytes::from_vec(alloc, Vec::from_slice(alloc, text)?)
}

// A name.
fn name(alloc: Global, text: &[u8]) -> Result<Name, Memory> {
    Name::from_vec(alloc, Vec::from_slice(alloc, text)?)
}

// Two names.
fn two_names(alloc: Global) -> Result<Vec<Name>, Memory> {
    let mut list = Vec::new(alloc);
    list.push(name(alloc, b"a".as_slice())?)?;
    list.push(name(alloc, b"bc".as_slice())?)?;
    Ok(list)
}

// The lines of the entries below.
static ENTRIES: [&str; 8] = [
    "begin t4294967295 s64\n",
    "fuse a1 a2 n9223372036854775808\n",
    "done t1 s2 c3 ok\n",
    "ended t5\n",
    "sealed a1\n",
    "committed a1\n",
    "acked s64 t0\n",
    "broken 12 1\n",
];

// The entry of a row.
fn entry(row: usize) -> Entry {
    let script = ScriptNo(64);
    let atom = AtomNo(1);
    match row {
        0 => Entry::Begin {
            txn: TxnNo(4294967295),
            script,
        },
        1 => Entry::Fuse {
            kept: atom,
            gone: AtomNo(2),
            node: NodeId(9223372036854775808),
        },
        2 => Entry::Done {
            txn: TxnNo(1),
            script: ScriptNo(2),
            index: 3,
            command: Command::Begin,
            reply: Reply::Okay,
        },
        3 => Entry::Ended { txn: TxnNo(5) },
        4 => Entry::Sealed { atom },
        5 => Entry::Committed { atom, clock: 9 },
        6 => Entry::Acked {
            script,
            txn: TxnNo(0),
            clock: 9,
        },
        _ => Entry::Broken {
            clock: 12,
            faults: 1,
        },
    }
}

// Its line.
fn entry_line(alloc: Global, row: usize) -> Result<Vec<u8>, Memory> {
    line_of(alloc, &entry(row))
}

#[test]
fn entries_have_lines(rt: HostRuntime) -> Result<(), Fail> {
    for (row, text) in ENTRIES.iter().enumerate() {
        let got = entry_line(rt.alloc(), row)?;
        is_line(&rt, got.as_slice(), text);
    }
    Ok(())
}

// The lines of the refusals with the replies below.
static REPLIES: [&str; 12] = [
    "refused t7 s3 c2 data 3 000aff\n",
    "refused t7 s3 c2 data 0\n",
    "refused t7 s3 c2 attr 100644 1 20 3 4 5 6 7\n",
    "refused t7 s3 c2 clash x y\n",
    "refused t7 s3 c2 names 2 a bc\n",
    "refused t7 s3 c2 names 0\n",
    "refused t7 s3 c2 space 10 9\n",
    "refused t7 s3 c2 tall 8\n",
    "refused t7 s3 c2 memory\n",
    "refused t7 s3 c2 readfault 21 2\n",
    "refused t7 s3 c2 damaged 24\n",
    "refused t7 s3 c2 reopen 3\n",
];

// Attributes with different numbers.
fn attr() -> Attr {
    Attr {
        mode: 0o100644,
        nlink: 1,
        size: 20,
        uid: 3,
        gid: 4,
        atime: 5,
        mtime: 6,
        ctime: 7,
        bytes: 8,
    }
}

// The reply of a row.
fn reply(alloc: Global, row: usize) -> Result<Reply, Memory> {
    Ok(match row {
        0 => Reply::Data {
            bytes: bytes(alloc, b"\x00\x0a\xff".as_slice())?,
        },
        1 => Reply::Data {
            bytes: bytes(alloc, &[])?,
        },
        2 => Reply::Attr { attr: attr() },
        3 => Reply::Clash {
            other: name(alloc, b"x y".as_slice())?,
        },
        4 => Reply::Names {
            names: Names::from_vec(alloc, two_names(alloc)?)?,
        },
        5 => Reply::Names {
            names: Names::from_vec(alloc, Vec::new(alloc))?,
        },
        6 => Reply::Space { need: 10, free: 9 },
        7 => Reply::Tall { height: 8 },
        8 => Reply::Memory,
        9 => Reply::Readfault {
            block: BlockNo(21),
            faults: 2,
        },
        10 => Reply::Damaged { block: BlockNo(24) },
        _ => Reply::Reopen { clock: 3 },
    })
}

// The line of a refusal.
fn refused_line(alloc: Global, reply: Reply) -> Result<Vec<u8>, Memory> {
    line_of(alloc, &refused(reply))
}

// The line of a refusal with the reply of a row.
fn reply_line(alloc: Global, row: usize) -> Result<Vec<u8>, Memory> {
    refused_line(alloc, reply(alloc, row)?)
}

#[test]
fn replies_have_texts(rt: HostRuntime) -> Result<(), Fail> {
    for (row, text) in REPLIES.iter().enumerate() {
        let got = reply_line(rt.alloc(), row)?;
        is_line(&rt, got.as_slice(), text);
    }
    Ok(())
}

#[test]
fn a_trace_grows(rt: HostRuntime) {
    let mut trace = Trace::new(rt.alloc());
    trace.room(2).expect(&rt, "memory");
    assert!(rt; trace.spare() == 2);
    trace.push(Entry::Ended { txn: TxnNo(1) });
    assert!(rt; trace.len() == 1);
    assert!(rt; matches!(trace.entry(0), Entry::Ended { txn } if txn.0 == 1));
}

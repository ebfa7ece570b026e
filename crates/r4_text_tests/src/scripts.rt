//! Scripts that are read, and the place of the first fault in others.

use r4_base::Memory;
use r4_content::{Command, Path};
use r4_script::{ParseFault, Script, ScriptFault, What, parse};
use std::alloc::Global;
use std::process::Abort;
use std::test::Fail;

// The place of the first fault, where there is one.
fn fault_of(alloc: Global, text: &[u8]) -> Option<ScriptFault> {
    match parse(alloc, text) {
        Err(ParseFault::Script(fault)) => Some(fault),
        _ => None,
    }
}

// Are these the names of the path?
fn has_names(path: &Path, names: &[&[u8]]) -> bool {
    let mut rest = names;
    for name in path.as_slice() {
        match rest {
            [first, others @ ..] if name.as_slice() == *first => rest = others,
            _ => return false,
        }
    }
    rest.is_empty()
}

// Texts, and the line, the column and the kind of the first fault of each.
static FAULTS: [(&str, u32, u32, What); 46] = [
    ("script\ncommit now", 2, 8, What::Field),
    ("script\nfrob /a", 2, 1, What::Command),
    ("script\nmkdir", 2, 6, What::Field),
    ("script\nend", 2, 1, What::Unopened),
    ("begin", 1, 1, What::Command),
    ("end", 1, 1, What::Command),
    ("# x\n\nscript\nbegin\nbegin\n", 5, 1, What::Nested),
    ("script\nbegin\ncommit\n", 3, 1, What::Open),
    ("script\nbegin\ncommit x\n", 3, 1, What::Open),
    ("script x", 1, 8, What::Field),
    ("script ", 1, 8, What::Field),
    (" script", 1, 1, What::Command),
    ("script\n ", 2, 1, What::Command),
    ("script\ncreate  /a", 2, 8, What::Path),
    ("script\ncreate ", 2, 8, What::Path),
    ("script\ncreate", 2, 7, What::Field),
    ("script\ncreate a", 2, 8, What::Path),
    ("script\ncreate /a\x7f", 2, 8, What::Path),
    ("script\ncreate /a\t", 2, 8, What::Path),
    ("script\ncreate /a /b", 2, 11, What::Field),
    ("script\ncreate /a ", 2, 11, What::Field),
    ("script\nwrite /a 0", 2, 11, What::Field),
    ("script\nwrite /a", 2, 9, What::Field),
    ("script\nwrite /a x y", 2, 10, What::Number),
    (
        "script\ntruncate /a 18446744073709551616",
        2,
        13,
        What::Number,
    ),
    (
        "script\ntruncate /a 018446744073709551615",
        2,
        13,
        What::Number,
    ),
    (
        "script\ntruncate /a 99999999999999999999",
        2,
        13,
        What::Number,
    ),
    ("script\ntruncate /a -1", 2, 13, What::Number),
    ("script\ntruncate /a +1", 2, 13, What::Number),
    ("script\ntruncate /a ", 2, 13, What::Number),
    ("script\nfill /a 0 1048577 0", 2, 11, What::Number),
    ("script\nfill /a 0 1048576 256", 2, 19, What::Number),
    ("script\nread /a 0 65537", 2, 11, What::Number),
    ("script\nchmod /a 8", 2, 10, What::Number),
    ("script\nchmod /a 00644", 2, 10, What::Number),
    ("script\nchown /a 0 4294967296", 2, 12, What::Number),
    ("script\ntimes /a 0 0", 2, 13, What::Field),
    ("script\nlink /a", 2, 8, What::Field),
    ("script\nrename /a b", 2, 11, What::Path),
    ("script\nend x", 2, 1, What::Unopened),
    ("script\nbegin\nend x", 3, 5, What::Field),
    ("script\nscript\nbegin\nscript\nend", 5, 1, What::Unopened),
    ("script\n#begin\nend", 3, 1, What::Unopened),
    ("Script", 1, 1, What::Command),
    ("script\r\n", 1, 1, What::Command),
    ("script\nbegin\nbegin x", 3, 1, What::Nested),
];

#[test]
fn faults_stand_at_their_places(rt: HostRuntime) {
    for &(text, line, column, what) in &FAULTS {
        let want = Some(ScriptFault { line, column, what });
        assert_eq!(rt; fault_of(rt.alloc(), text.as_bytes()), want, "at {text}");
    }
}

// Looks at the first five commands.
fn first_are_read<X: Abort>(rt: &X, commands: &[Command]) {
    assert!(rt; matches!(commands.get(0), Some(Command::Begin)));
    assert!(rt;
        matches!(commands.get(1), Some(Command::Create { path, oid }) if has_names(path, &[b"a"]) && oid.0 == 0)
    );
    assert!(rt;
        matches!(commands.get(3), Some(Command::Write { offset: 0, text, .. }) if text.as_slice().is_empty())
    );
    assert!(rt;
        matches!(commands.get(4), Some(Command::Write { offset: 1, text, .. }) if text.as_slice() == b"x  y ".as_slice())
    );
}

// Looks at those behind them, up to the tenth.
fn next_are_read<X: Abort>(rt: &X, commands: &[Command]) {
    assert!(rt;
        matches!(
            commands.get(5),
            Some(Command::Fill {
                offset: 2,
                len: 1048576,
                byte: 255,
                ..
            })
        )
    );
    assert!(rt;
        matches!(
            commands.get(6),
            Some(Command::Truncate {
                size: 18446744073709551615,
                ..
            })
        )
    );
    assert!(rt; matches!(commands.get(8), Some(Command::Stat { path }) if has_names(path, &[])));
    assert!(rt;
        matches!(commands.get(9), Some(Command::Names { path }) if has_names(path, &[b"d", b"", b"e", b""]))
    );
}

// Looks at the last ones.
fn last_are_read<X: Abort>(rt: &X, commands: &[Command]) {
    assert!(rt; matches!(commands.get(14), Some(Command::Chmod { mode: 4095, .. })));
    assert!(rt;
        matches!(
            commands.get(15),
            Some(Command::Chown {
                uid: 4294967295,
                gid: 0,
                ..
            })
        )
    );
    assert!(rt;
        matches!(
            commands.get(16),
            Some(Command::Times {
                atime: 0,
                mtime: 1,
                ctime: 4294967295,
                ..
            })
        )
    );
    assert!(rt; matches!(commands.get(18), Some(Command::Commit)));
}

// Looks at the script of all commands.
fn is_read<X: Abort>(rt: &X, scripts: &[Script]) {
    let [script] = scripts else {
        assert!(rt; false, "one script");
        return;
    };
    let commands = script.commands.as_slice();
    assert_eq!(rt; commands.len(), 19);
    first_are_read(rt, commands);
    next_are_read(rt, commands);
    last_are_read(rt, commands);
}

#[test]
fn every_command_is_read(rt: HostRuntime) {
    let text =
        b"script\nbegin\ncreate /a\nmkdir /d\nwrite /a 0 \nwrite /a 1 x  y \nfill /a 00000000000000000002 1048576 255\ntruncate /a 18446744073709551615\nread /a 0 65536\nstat /\nnames /d//e/\nlink /a /b\nunlink /b\nrmdir /d\nrename /a /c\nchmod /c 7777\nchown /c 4294967295 0\ntimes /c 0 1 4294967295\nend\ncommit";
    let job = parse(rt.alloc(), text.as_slice()).expect(&rt, "a job");
    is_read(&rt, job.scripts.as_slice());
}

// What is judged of three pieces of text, one behind the other.
fn fault_in(
    alloc: Global,
    first: &[u8],
    second: &[u8],
    third: &[u8],
) -> Result<Option<ScriptFault>, Memory> {
    let mut text = Vec::from_slice(alloc, first)?;
    text.extend_from_slice(second)?;
    text.extend_from_slice(third)?;
    Ok(fault_of(alloc, text.as_slice()))
}

// So many scripts of no command.
fn scripts(alloc: Global, count: usize) -> Result<Vec<u8>, Memory> {
    let mut text = Vec::new(alloc);
    for _ in 0..count {
        text.extend_from_slice(b"script\n".as_slice())?;
    }
    Ok(text)
}

// The column of the fault in a write of so many bytes.
fn column_behind(alloc: Global, len: usize) -> Result<Option<u32>, Memory> {
    let bytes = vec![in alloc; b'x'; len]?;
    let fault = fault_in(alloc, b"script\n", b"write /a 0 ", bytes.as_slice())?;
    Ok(fault.map(|fault| fault.column))
}

// The last piece behind 64 scripts, and the fault there.
static SCRIPTS: [(&[u8], Option<ScriptFault>); 2] = [
    (b"", None),
    (
        b"script x",
        Some(ScriptFault {
            line: 65,
            column: 1,
            what: What::Scripts,
        }),
    ),
];

#[test]
fn limits_are_kept(rt: HostRuntime) -> Result<(), Fail> {
    let alloc = rt.alloc();
    for (len, want) in [(4096, None), (4097, Some(4108))] {
        assert_eq!(rt; column_behind(alloc, len)?, want);
    }
    let scripts = scripts(alloc, 64)?;
    for &(end, want) in &SCRIPTS {
        let fault = fault_in(alloc, scripts.as_slice(), b"", end)?;
        assert_eq!(rt; fault, want);
    }
    Ok(())
}

// What stands behind a comment of 16,777,209 bytes, and the fault there.
static ENDS: [(&[u8], Option<ScriptFault>); 3] = [
    (b"\nscript", None),
    (
        b"\nscript\n",
        Some(ScriptFault {
            line: 2,
            column: 7,
            what: What::Long,
        }),
    ),
    (
        b"\nscripx y",
        Some(ScriptFault {
            line: 2,
            column: 1,
            what: What::Command,
        }),
    ),
];

#[test]
fn a_text_is_at_most_so_long(rt: HostRuntime) -> Result<(), Fail> {
    let comment = vec![in rt.alloc(); b'#'; 16777209]?;
    for &(end, want) in &ENDS {
        let fault = fault_in(rt.alloc(), comment.as_slice(), b"", end)?;
        assert_eq!(rt; fault, want);
    }
    Ok(())
}

// The last line, how many of its bytes are within the limit, and the column and the kind of the fault there.
static CUTS: [(&[u8], u8, u32, What); 3] = [
    (b"\nmkdir /a\n", 6, 7, What::Long),
    (b"\ncommit x\n", 7, 8, What::Long),
    (b"\ncommit x\n", 8, 8, What::Field),
];

#[test]
fn a_cut_line_is_judged_up_to_the_limit(rt: HostRuntime) -> Result<(), Fail> {
    for &(line, within, column, what) in &CUTS {
        let comment = vec![in rt.alloc(); b'#'; 16777208 - usize::from(within)]?;
        let fault = fault_in(rt.alloc(), b"script\n", comment.as_slice(), line)?;
        let want = Some(ScriptFault {
            line: 3,
            column,
            what,
        });
        assert_eq!(rt; fault, want, "{within} bytes");
    }
    Ok(())
}

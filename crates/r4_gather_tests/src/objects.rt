//! What commands ask for that are of one object: of its bytes or of its attributes.

use crate::looked::{Row, all_look};
use r4_tree_testing::NEXT;
use std::test::Fail;

// Bytes are set or cut off.
static WRITING: [Row; 24] = [
    ("write /f 0 x", "root=dir /f=f f=file"),
    ("write /f 9000 x", "root=dir /f=f f=file"),
    ("write /i 0 x", "root=dir /i=i i=file"),
    ("write /d/x 0 ", "root=dir /d=d d=dir d/x=x x=file"),
    // `name`, `absent`, `notdir`, `isdir`, `toobig`.
    ("write /.. 0 x", ""),
    ("write /q 0 x", "root=dir /q=none"),
    ("write /z 0 x", "root=dir /z=z z=none"),
    ("write /f/x 0 x", "root=dir /f=f f=file"),
    ("write /d 0 x", "root=dir /d=d d=dir"),
    ("write /f 1073741824 x", "root=dir /f=f f=file"),
    ("fill /g 50 100 7", "root=dir /g=g g=file"),
    ("fill /. 0 1 7", ""),
    ("fill /q 0 1 7", "root=dir /q=none"),
    ("fill /f/x 0 1 7", "root=dir /f=f f=file"),
    ("fill / 0 1 7", "root=dir"),
    ("fill /g 1073741824 1 7", "root=dir /g=g g=file"),
    ("truncate /h 0", "root=dir /h=h h=file"),
    ("truncate /h 3000", "root=dir /h=h h=file"),
    ("truncate /h 3001", "root=dir /h=h h=file"),
    ("truncate /h/ 0", ""),
    ("truncate /q 0", "root=dir /q=none"),
    ("truncate /f/x 0", "root=dir /f=f f=file"),
    ("truncate /e 0", "root=dir /e=e e=dir"),
    ("truncate /f 1073741825", "root=dir /f=f f=file"),
];

// Bytes are read: just those that are there.
static READING: [Row; 16] = [
    ("read /f 0 9", "root=dir /f=f f=file f[0,9)=9*a"),
    (
        "read /f 4000 5000",
        "root=dir /f=f f=file f[4000,9000)=96*a+4096*0+808*b",
    ),
    ("read /f 5000 7", "root=dir /f=f f=file f[5000,5007)=7*0"),
    (
        "read /f 8191 2",
        "root=dir /f=f f=file f[8191,8193)=1*0+1*b",
    ),
    (
        "read /f 8999 65536",
        "root=dir /f=f f=file f[8999,9000)=1*b",
    ),
    ("read /f 9000 1", "root=dir /f=f f=file"),
    ("read /f 0 0", "root=dir /f=f f=file"),
    ("read /i 0 9", "root=dir /i=i i=file"),
    ("read /g 0 100", "root=dir /g=g g=file g[0,100)=100*g"),
    ("read /h 0 4096", "root=dir /h=h h=file h[0,3000)=3000*c"),
    (
        "read /d/x 3857 9",
        "root=dir /d=d d=dir d/x=x x=file x[3857,3858)=1*x",
    ),
    // `name`, `absent`, `notdir`, `isdir`.
    ("read /.. 0 9", ""),
    ("read /q 0 9", "root=dir /q=none"),
    ("read /z 0 9", "root=dir /z=z z=none"),
    ("read /f/x 0 9", "root=dir /f=f f=file"),
    ("read /d 0 9", "root=dir /d=d d=dir"),
];

// Attributes are read or set, and transactions begin and end.
static ATTRIBUTES: [Row; 21] = [
    ("stat /", "root=dir"),
    ("stat /d/x", "root=dir /d=d d=dir d/x=x x=file"),
    ("stat /.", ""),
    ("stat /q", "root=dir /q=none"),
    ("stat /z", "root=dir /z=z z=none"),
    ("stat /d/x/y", "root=dir /d=d d=dir d/x=x x=file"),
    ("chmod /d 700", "root=dir /d=d d=dir"),
    ("chmod /. 0", ""),
    ("chmod /q 0", "root=dir /q=none"),
    ("chmod /f/x 0", "root=dir /f=f f=file"),
    ("chown /h 1 2", "root=dir /h=h h=file"),
    ("chown /.. 1 2", ""),
    ("chown /e/q 1 2", "root=dir /e=e e=dir e/q=none"),
    ("chown /f/x 1 2", "root=dir /f=f f=file"),
    ("times / 1 2 3", "root=dir"),
    ("times // 1 2 3", ""),
    ("times /q 1 2 3", "root=dir /q=none"),
    ("times /f/x 1 2 3", "root=dir /f=f f=file"),
    ("begin", ""),
    ("begin\nend", ""),
    ("commit", ""),
];

#[test]
fn writing_asks_for_this(rt: HostRuntime) -> Result<(), Fail> {
    all_look(&rt, rt.alloc(), &WRITING, NEXT)
}

#[test]
fn reading_asks_for_this(rt: HostRuntime) -> Result<(), Fail> {
    all_look(&rt, rt.alloc(), &READING, NEXT)
}

#[test]
fn attributes_ask_for_this(rt: HostRuntime) -> Result<(), Fail> {
    all_look(&rt, rt.alloc(), &ATTRIBUTES, NEXT)
}

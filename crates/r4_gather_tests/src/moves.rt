//! What commands ask for that name two paths: the keys on both ways are asked for twice.

use crate::looked::{Row, all_look};
use r4_tree_testing::NEXT;
use std::test::Fail;

// Further names.
static LINKS: [Row; 16] = [
    ("link /f /n", "root=dir /f=f f=file root=dir /n=none"),
    (
        "link /f /d/n",
        "root=dir /f=f f=file root=dir /d=d d=dir d/n=none",
    ),
    // `name` in either path.
    ("link /../f /n", ""),
    ("link /f /..", ""),
    // The way to the first: `absent`, `notdir`; then `isdir`.
    ("link /q /n", "root=dir /q=none"),
    ("link /z /n", "root=dir /z=z z=none"),
    ("link /f/x /n", "root=dir /f=f f=file"),
    ("link /d /n", "root=dir /d=d d=dir"),
    ("link / /n", "root=dir"),
    // `exists` for `/`, the way to the parent, `notdir`, `exists`, `clash`.
    ("link /f /", "root=dir /f=f f=file"),
    ("link /f /q/n", "root=dir /f=f f=file root=dir /q=none"),
    (
        "link /f /g/x/n",
        "root=dir /f=f f=file root=dir /g=g g=file",
    ),
    ("link /f /g/n", "root=dir /f=f f=file root=dir /g=g g=file"),
    ("link /f /g", "root=dir /f=f f=file root=dir /g=g"),
    (
        "link /f /aaaaaaaaaaaaaaaxxxxxxxbl",
        "root=dir /f=f f=file root=dir /long=h",
    ),
    // `links`.
    ("link /h /n", "root=dir /h=h h=file root=dir /n=none"),
];

// Other names.
static RENAMES: [Row; 27] = [
    ("rename /f /n", "root=dir /f=f f=file root=dir /n=none"),
    (
        "rename /f /d/n",
        "root=dir /f=f f=file root=dir /d=d d=dir d/n=none",
    ),
    (
        "rename /d/x /n",
        "root=dir /d=d d=dir d/x=x x=file root=dir /n=none",
    ),
    ("rename /d /n", "root=dir /d=d d=dir root=dir /n=none"),
    // Onto a file, and a directory onto an empty one.
    ("rename /f /g", "root=dir /f=f f=file root=dir /g=g g=file"),
    (
        "rename /d /e",
        "root=dir /d=d d=dir root=dir /e=e e=dir e/*=",
    ),
    // `name` in either path, before `loop` for `/`.
    ("rename /./f /", ""),
    ("rename /f /..", ""),
    ("rename /d /", ""),
    ("rename / /n", ""),
    // The ways: `absent` and `notdir`; `notdir` for the parent.
    ("rename /q /n", "root=dir /q=none"),
    ("rename /z /n", "root=dir /z=z z=none"),
    ("rename /f/x /n", "root=dir /f=f f=file"),
    ("rename /f /q/n", "root=dir /f=f f=file root=dir /q=none"),
    (
        "rename /f /g/x/n",
        "root=dir /f=f f=file root=dir /g=g g=file",
    ),
    (
        "rename /f /g/n",
        "root=dir /f=f f=file root=dir /g=g g=file",
    ),
    // `loop`, at the end of the way and before it.
    ("rename /d /d/n", "root=dir /d=d d=dir root=dir /d=d d=dir"),
    (
        "rename /d /d/x/n",
        "root=dir /d=d d=dir root=dir /d=d d=dir d/x=x x=file",
    ),
    // Two names of one object: nothing is done.
    (
        "rename /h /aaaaaaaaaaaaaaaxxxxxxxca",
        "root=dir /h=h h=file root=dir /long=h",
    ),
    ("rename /f /f", "root=dir /f=f f=file root=dir /f=f"),
    // `clash`; `absent` for an object that is not there, `notdir`, `isdir`, `notempty`.
    (
        "rename /f /aaaaaaaaaaaaaaaxxxxxxxbl",
        "root=dir /f=f f=file root=dir /long=h",
    ),
    ("rename /f /z", "root=dir /f=f f=file root=dir /z=z z=none"),
    ("rename /e /f", "root=dir /e=e e=dir root=dir /f=f f=file"),
    ("rename /f /e", "root=dir /f=f f=file root=dir /e=e e=dir"),
    (
        "rename /e /d",
        "root=dir /e=e e=dir root=dir /d=d d=dir d/*=x",
    ),
    // `links`, and another directory with as many, which stays in its parent.
    (
        "rename /e /m/n",
        "root=dir /e=e e=dir root=dir /m=m m=dir m/n=none",
    ),
    ("rename /m /n", "root=dir /m=m m=dir root=dir /n=none"),
];

#[test]
fn links_ask_for_this(rt: HostRuntime) -> Result<(), Fail> {
    all_look(&rt, rt.alloc(), &LINKS, NEXT)
}

#[test]
fn renames_ask_for_this(rt: HostRuntime) -> Result<(), Fail> {
    all_look(&rt, rt.alloc(), &RENAMES, NEXT)
}

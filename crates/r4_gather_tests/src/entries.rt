//! What commands ask for that make or take away entries.

use crate::looked::{Row, all_look};
use r4_base::Oid;
use r4_tree_testing::NEXT;
use std::test::Fail;

// Commands that make an object.
static MAKING: [Row; 24] = [
    ("create /n", "root=dir /n=none"),
    ("create /d/n", "root=dir /d=d d=dir d/n=none"),
    // `exists`, at `/` and else.
    ("create /", ""),
    ("create /f", "root=dir /f=f"),
    ("create /d", "root=dir /d=d"),
    // `name`.
    ("create /..", ""),
    ("create /../n", ""),
    // The way to the parent: `absent`, also for an object that is not there, and `notdir`.
    ("create /q/n", "root=dir /q=none"),
    ("create /z/n", "root=dir /z=z z=none"),
    ("create /f/x/n", "root=dir /f=f f=file"),
    // `notdir` for the parent.
    ("create /f/n", "root=dir /f=f f=file"),
    ("create /d/x/n", "root=dir /d=d d=dir d/x=x x=file"),
    // `clash`.
    ("create /aaaaaaaaaaaaaaaxxxxxxxbl", "root=dir /long=h"),
    ("mkdir /n", "root=dir /n=none"),
    ("mkdir /e/n", "root=dir /e=e e=dir e/n=none"),
    ("mkdir /", ""),
    ("mkdir /d", "root=dir /d=d"),
    ("mkdir /n/", ""),
    ("mkdir /q/n", "root=dir /q=none"),
    ("mkdir /f/x/n", "root=dir /f=f f=file"),
    ("mkdir /f/n", "root=dir /f=f f=file"),
    ("mkdir /z/n", "root=dir /z=z z=none"),
    ("mkdir /aaaaaaaaaaaaaaaxxxxxxxbl", "root=dir /long=h"),
    // `links`.
    ("mkdir /m/n", "root=dir /m=m m=dir m/n=none"),
];

// Commands on what is there.
static TAKING: [Row; 29] = [
    ("names /", "root=dir /*=d,e,f,g,h,i,m,z,long"),
    ("names /d", "root=dir /d=d d=dir d/*=x"),
    ("names /e", "root=dir /e=e e=dir e/*="),
    ("names /.", ""),
    ("names /q", "root=dir /q=none"),
    ("names /z", "root=dir /z=z z=none"),
    ("names /f/x", "root=dir /f=f f=file"),
    ("names /f", "root=dir /f=f f=file"),
    // The last link of a file, one of more, and the other one.
    ("unlink /f", "root=dir /f=f f=file"),
    ("unlink /h", "root=dir /h=h h=file"),
    (
        "unlink /aaaaaaaaaaaaaaaxxxxxxxca",
        "root=dir /long=h h=file",
    ),
    ("unlink /d/x", "root=dir /d=d d=dir d/x=x x=file"),
    // `isdir` for `/`; then `name`, `absent` and `notdir` on the way, and `isdir`.
    ("unlink /", ""),
    ("unlink /.", ""),
    ("unlink /q", "root=dir /q=none"),
    ("unlink /aaaaaaaaaaaaaaaxxxxxxxbl", "root=dir /long=h"),
    ("unlink /z", "root=dir /z=z z=none"),
    ("unlink /f/x", "root=dir /f=f f=file"),
    ("unlink /d", "root=dir /d=d d=dir"),
    ("rmdir /e", "root=dir /e=e e=dir e/*="),
    ("rmdir /m", "root=dir /m=m m=dir m/*="),
    // `loop` for `/`; then `name`, `absent` and `notdir` on the way, `notdir` and `notempty`.
    ("rmdir /", ""),
    ("rmdir /..", ""),
    ("rmdir /q", "root=dir /q=none"),
    ("rmdir /z", "root=dir /z=z z=none"),
    ("rmdir /f/x", "root=dir /f=f f=file"),
    ("rmdir /f", "root=dir /f=f f=file"),
    ("rmdir /d", "root=dir /d=d d=dir d/*=x"),
    ("rmdir /d/x", "root=dir /d=d d=dir d/x=x x=file"),
];

// Where the last number is used up, `oids` comes after all that is asked for.
static NUMBERLESS: [Row; 4] = [
    ("create /n", "root=dir /n=none"),
    ("create /f", "root=dir /f=f"),
    ("mkdir /d/n", "root=dir /d=d d=dir d/n=none"),
    ("mkdir /m/n", "root=dir /m=m m=dir m/n=none"),
];

#[test]
fn making_asks_for_this(rt: HostRuntime) -> Result<(), Fail> {
    all_look(&rt, rt.alloc(), &MAKING, NEXT)
}

#[test]
fn taking_asks_for_this(rt: HostRuntime) -> Result<(), Fail> {
    all_look(&rt, rt.alloc(), &TAKING, NEXT)
}

#[test]
fn making_without_numbers_asks_for_the_same(rt: HostRuntime) -> Result<(), Fail> {
    all_look(&rt, rt.alloc(), &NUMBERLESS, Oid((1 << 60) - 1))
}

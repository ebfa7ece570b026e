//! What commands reach that make or take away entries, bodies in tails.

use crate::rows::all_reach;
use r4_base::Oid;
use r4_reach_testing::Row;
use r4_tree_testing::{Bodies, NEXT};
use std::test::Fail;

// Commands that make an object. In the full leaf 29 there is no room for one: it is parted, and its
// twig is asked for two pointers.
static MAKING: [Row; 25] = [
    ("create /n", "writes 23 24, 2 new"),
    ("create /d/n", "reads 23, writes 24 29 30, 5 new"),
    // `exists`, at `/` and else.
    ("create /", ""),
    ("create /f", "reads 23"),
    ("create /d/x", "reads 23 24 29"),
    // `name`.
    ("create /..", ""),
    ("create /../n", ""),
    // The way to the parent: `absent`, also for an object that is not there, and `notdir`.
    ("create /q/n", "reads 23"),
    ("create /z/n", "reads 23 24"),
    ("create /f/x/n", "reads 23 24"),
    // `notdir` for the parent.
    ("create /f/n", "reads 23 24"),
    ("create /d/x/n", "reads 23 24 29"),
    // `clash`.
    ("create /aaaaaaaaaaaaaaaxxxxxxxbl", "reads 23"),
    ("mkdir /n", "writes 23 24, 2 new"),
    ("mkdir /e/n", "reads 23, writes 24 29 30, 5 new"),
    ("mkdir /", ""),
    ("mkdir /d", "reads 23"),
    ("mkdir /n/", ""),
    ("mkdir /q/n", "reads 23"),
    ("mkdir /z/n", "reads 23 24"),
    ("mkdir /f/x/n", "reads 23 24"),
    ("mkdir /f/n", "reads 23 24"),
    ("mkdir /aaaaaaaaaaaaaaaxxxxxxxbl", "reads 23"),
    // `links`, and none for a file in the same directory.
    ("mkdir /m/n", "reads 23 24 29"),
    ("create /m/n", "reads 23, writes 24 29 30, 5 new"),
];

// Commands on what is there.
static TAKING: [Row; 30] = [
    ("names /", "reads 23"),
    ("names /d", "reads 23 24 29"),
    ("names /e", "reads 23 24 29"),
    ("names /.", ""),
    ("names /q", "reads 23"),
    ("names /z", "reads 23 24"),
    ("names /f/x", "reads 23 24"),
    ("names /f", "reads 23 24"),
    // The last link of a file, one of more, and the other one.
    ("unlink /f", "writes 23 24 25 26 27, 5 new"),
    ("unlink /i", "writes 23 24, 2 new"),
    ("unlink /h", "writes 23 24, 2 new"),
    ("unlink /aaaaaaaaaaaaaaaxxxxxxxca", "writes 23 24, 2 new"),
    ("unlink /d/x", "reads 23, writes 24 29, 2 new"),
    // `isdir` for `/`; then `name`, `absent` and `notdir` on the way, and `isdir`.
    ("unlink /", ""),
    ("unlink /.", ""),
    ("unlink /q", "reads 23"),
    ("unlink /aaaaaaaaaaaaaaaxxxxxxxbl", "reads 23"),
    ("unlink /z", "reads 23 24"),
    ("unlink /f/x", "reads 23 24"),
    ("unlink /d", "reads 23 24"),
    // An empty directory is one with no entry in leaf 29.
    ("rmdir /e", "reads 29, writes 23 24, 2 new"),
    ("rmdir /m", "reads 29, writes 23 24, 2 new"),
    // `loop` for `/`; then `name`, `absent` and `notdir` on the way, `notdir` and `notempty`.
    ("rmdir /", ""),
    ("rmdir /..", ""),
    ("rmdir /q", "reads 23"),
    ("rmdir /z", "reads 23 24"),
    ("rmdir /f/x", "reads 23 24"),
    ("rmdir /f", "reads 23 24"),
    ("rmdir /d", "reads 23 24 29"),
    ("rmdir /d/x", "reads 23 24 29"),
];

// Where the last number is used up: `oids`, and `links` before it.
static NUMBERLESS: [Row; 4] = [
    ("create /n", "reads 23"),
    ("create /f", "reads 23"),
    ("mkdir /d/n", "reads 23 24 29"),
    ("mkdir /m/n", "reads 23 24 29"),
];

#[test]
fn making_reaches_this(rt: HostRuntime) -> Result<(), Fail> {
    all_reach(&rt, rt.alloc(), Bodies::Tails, &[2, 3, 4], &MAKING, NEXT)
}

#[test]
fn taking_reaches_this(rt: HostRuntime) -> Result<(), Fail> {
    all_reach(&rt, rt.alloc(), Bodies::Tails, &[2, 3, 4], &TAKING, NEXT)
}

#[test]
fn making_without_numbers_reaches_this(rt: HostRuntime) -> Result<(), Fail> {
    let last = Oid((1 << 60) - 1);
    all_reach(
        &rt,
        rt.alloc(),
        Bodies::Tails,
        &[2, 3, 4],
        &NUMBERLESS,
        last,
    )
}

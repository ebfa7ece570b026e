//! Commands that change nothing: no cell goes or comes, no object, and no line of the listing.

use crate::rows::none_differ;
use r4_base::Oid;
use r4_change_testing::{Told, Tree, other_replies};
use r4_tree_testing::{Bodies, NEXT};
use std::alloc::Global;
use std::test::Fail;

// They read, or there is nothing to be done.
static READING: [Told; 11] = [
    ("read /f 3999 2", "2 bytes"),
    ("read /f 4000 9000", "5000 bytes"),
    ("read /f 9000 1", "0 bytes"),
    ("stat /", "5 links, 9 bytes"),
    ("names /d", "names x"),
    ("names /", "names d e f g h i m z aaaaaaaaaaaaaaaxxxxxxxca"),
    ("begin", "ok"),
    ("begin\nend", "ok"),
    ("commit", "ok"),
    ("truncate /h 3000", "ok"),
    ("rename /h /aaaaaaaaaaaaaaaxxxxxxxca", "ok"),
];

// They are refused: each reason once.
static REFUSED: [Told; 10] = [
    ("create /..", "name"),
    ("create /f/n", "notdir"),
    ("unlink /q", "absent"),
    ("mkdir /f", "exists"),
    ("create /aaaaaaaaaaaaaaaxxxxxxxbl", "clash"),
    ("mkdir /m/n", "links"),
    ("write /d 0 x", "isdir"),
    ("truncate /f 1073741825", "toobig"),
    ("rename /d /d/n", "loop"),
    ("rmdir /d", "notempty"),
];

// Where the last number is used up.
static NUMBERLESS: [Told; 2] = [("create /n", "oids"), ("mkdir /d/n", "oids")];

// Replies that are not these, at the heights 2, 3 and 4.
fn others(alloc: Global, rows: &[Told], made: Oid) -> Result<String, Fail> {
    let mut out = String::new(alloc);
    for height in 2..5 {
        let tree = Tree::Volume(Bodies::Tails, height);
        out.push_str(other_replies(alloc, tree, rows, made)?.as_str())?;
    }
    Ok(out)
}

#[test]
fn reading_changes_nothing(rt: HostRuntime) -> Result<(), Fail> {
    let other = others(rt.alloc(), &READING, NEXT)?;
    none_differ(&rt, other.as_str());
    Ok(())
}

#[test]
fn refused_commands_change_nothing(rt: HostRuntime) -> Result<(), Fail> {
    let other = others(rt.alloc(), &REFUSED, NEXT)?;
    none_differ(&rt, other.as_str());
    Ok(())
}

#[test]
fn nothing_is_made_without_numbers(rt: HostRuntime) -> Result<(), Fail> {
    let other = others(rt.alloc(), &NUMBERLESS, Oid((1 << 60) - 1))?;
    none_differ(&rt, other.as_str());
    Ok(())
}

//! Tables of commands with what becomes of them.

use crate::carrying::{Done, carry_out, change};
use crate::counts::standing;
use crate::volumes::{Volume, new_tree};
use r4_base::Oid;
use r4_cell::Root;
use r4_outside::MemoryDevice;
use r4_tree_testing::{Bodies, command, full, volume, with_room};
use std::alloc::{AllocError, Global};
use std::test::Fail;

/// The tree of a new volume, or one of `r4_tree_testing`: a volume of a height; a file below a twig
/// with room, and so many levels above it; or the file's first leaf below so many full levels.
#[derive(Clone, Copy, Debug, PartialEq, Eq)]
pub enum Tree {
    New,
    Volume(Bodies, u8),
    WithRoom(u8),
    Full(u8),
}

impl Tree {
    // The tree on a device.
    fn make(self, alloc: Global) -> Result<(MemoryDevice, Root), Fail> {
        match self {
            Tree::New => new_tree(alloc),
            Tree::Volume(bodies, height) => volume(alloc, bodies, height),
            Tree::WithRoom(levels) => with_room(alloc, levels),
            Tree::Full(levels) => full(alloc, levels),
        }
    }
}

/// The lines of a command, and what becomes of it, as in `Done`.
#[derive(Clone, Copy, Debug)]
pub struct Row {
    pub command: &'static str,
    pub told: &'static str,
    pub lines: &'static [&'static str],
}

/// The lines of a command, and what is told of it in one line: its reply, or what stands
/// afterwards.
pub type Told = (&'static str, &'static str);

/// What becomes of commands otherwise than the rows have it, each in a tree of its own; nothing
/// where all is as they have it. An object that a command makes gets a number.
///
/// # Errors
/// Where there is no memory, a row has no command, or one is not carried out.
pub fn others(alloc: Global, tree: Tree, rows: &[Row], made: Oid) -> Result<String, Fail> {
    let mut out = String::new(alloc);
    for row in rows {
        let done = done(alloc, tree, row.command, made)?;
        compare(alloc, &mut out, row, &done)?;
    }
    Ok(out)
}

/// The same of commands that are made one after another in one tree. The first gets this number,
/// and each other one the next.
///
/// # Errors
/// As of `others`.
pub fn others_in_turn(alloc: Global, tree: Tree, rows: &[Row], made: Oid) -> Result<String, Fail> {
    let mut out = String::new(alloc);
    let mut volume = Volume::with_tree(alloc, tree.make(alloc)?)?;
    let mut next = made;
    for row in rows {
        let done = carry_out(alloc, &mut volume, command(alloc, row.command, next)?)?;
        compare(alloc, &mut out, row, &done)?;
        next = Oid(next.0.saturating_add(1));
    }
    Ok(out)
}

// Adds what became of a command where it is otherwise than its row has it.
fn compare(alloc: Global, out: &mut String, row: &Row, done: &Done) -> Result<(), AllocError> {
    if done.told.as_str() == row.told && are_same(done.lines.as_slice(), row.lines) {
        return Ok(());
    }
    put_other(alloc, out, row.command, done)
}

/// The same of commands that change nothing.
///
/// # Errors
/// As of `others`.
pub fn other_replies(alloc: Global, tree: Tree, rows: &[Told], made: Oid) -> Result<String, Fail> {
    let mut out = String::new(alloc);
    for (lines, reply) in rows {
        let done = done(alloc, tree, lines, made)?;
        if done.told.as_str() != *reply || !done.lines.is_empty() {
            put_other(alloc, &mut out, lines, &done)?;
        }
    }
    Ok(out)
}

/// Of commands with how many values stand in their volumes afterwards, as `standing` tells it,
/// those for which it is otherwise.
///
/// # Errors
/// As of `others`.
pub fn other_counts(alloc: Global, tree: Tree, rows: &[Told], made: Oid) -> Result<String, Fail> {
    let mut out = String::new(alloc);
    for (lines, wanted) in rows {
        let counts = counts_after(alloc, tree, lines, made)?;
        if counts.as_str() != *wanted {
            out.push_str(format!(in alloc; "{lines}: {counts}\n")?.as_str())?;
        }
    }
    Ok(out)
}

// How many values stand in a tree after a command.
fn counts_after(alloc: Global, tree: Tree, lines: &str, made: Oid) -> Result<String, Fail> {
    let mut volume = Volume::with_tree(alloc, tree.make(alloc)?)?;
    let command = command(alloc, lines, made)?;
    change(alloc, &mut volume, command)?;
    standing(alloc, &mut volume)
}

// What becomes of a command in a tree.
fn done(alloc: Global, tree: Tree, lines: &str, made: Oid) -> Result<Done, Fail> {
    let mut volume = Volume::with_tree(alloc, tree.make(alloc)?)?;
    let command = command(alloc, lines, made)?;
    carry_out(alloc, &mut volume, command)
}

// Whether lines are these.
fn are_same(lines: &[String], wanted: &[&str]) -> bool {
    lines.len() == wanted.len()
        && lines
            .iter()
            .zip(wanted.iter())
            .all(|(line, other)| line.as_str() == *other)
}

// Adds what became of a command.
fn put_other(
    alloc: Global,
    out: &mut String,
    command: &str,
    done: &Done,
) -> Result<(), AllocError> {
    out.push_str(command)?;
    out.push_str(": ")?;
    out.push_str(done.told.as_str())?;
    for line in &done.lines {
        out.push_str(format!(in alloc; "; {line}")?.as_str())?;
    }
    out.push_str("\n")
}

//! Tables of commands with what they reach.

use crate::reached::{Found, reach};
use r4_base::Oid;
use r4_cell::Root;
use r4_outside::MemoryDevice;
use r4_tree_testing::{Counting, command};
use std::alloc::{AllocError, Global};
use std::test::Fail;

/// The lines of a command, and the words that are told of it.
pub type Row = (&'static str, &'static str);

/// What is told of a command: `Found::words`, or `Found::met_words`.
#[derive(Clone, Copy, Debug, PartialEq, Eq)]
pub enum Telling {
    Touched,
    Met,
}

/// The rows that are not as a tree has them, each with what is told there and with its height, and
/// those for which a block is read twice; nothing where there are none. An object that a command
/// makes gets this number.
///
/// # Errors
/// Where there is no memory, a row has no command, or the root is not on a device of `BLOCKS`
/// blocks.
pub fn differences(
    alloc: Global,
    tree: (MemoryDevice, Root),
    rows: &[Row],
    made: Oid,
    telling: Telling,
) -> Result<String, Fail> {
    let mut out = String::new(alloc);
    let mut dev = Counting::new(alloc, tree.0);
    for row in rows {
        let command = command(alloc, row.0, made)?;
        let found = reach(alloc, &mut dev, tree.1, &command)?;
        let got = told(alloc, &found, telling)?;
        compare(alloc, &mut out, row, got.as_str(), tree.1.height)?;
        if dev.again > 0 {
            out.push_str(row.0)?;
            out.push_str(": a block is read twice; ")?;
        }
    }
    Ok(out)
}

// What is told of this one.
fn told(alloc: Global, found: &Found, telling: Telling) -> Result<String, AllocError> {
    match telling {
        Telling::Touched => found.words(alloc),
        Telling::Met => found.met_words(alloc),
    }
}

// Adds a row that has other words.
fn compare(
    alloc: Global,
    out: &mut String,
    row: &Row,
    got: &str,
    height: u8,
) -> Result<(), AllocError> {
    let (lines, wanted) = *row;
    if got == wanted {
        return Ok(());
    }
    out.push_str(lines)?;
    out.push_str(format!(in alloc; " at height {height}: ")?.as_str())?;
    out.push_str(got)?;
    out.push_str(", wanted: ")?;
    out.push_str(wanted)?;
    out.push_str("; ")
}

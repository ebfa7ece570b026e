//! What a command reaches, by the numbers of cells.

ghost use Rattle.r4_content.specs.Fields.{HasBytePaths};

use r4_buffer::{Buffer, Reading};
use r4_cell::{Cell, Root};
use r4_content::Command;
use r4_outside::Device;
use r4_reaching::{Reach, reach_in_leaves};
use r4_search::FetchFault;
use r4_tree_testing::{BLOCKS, Counting};
use std::alloc::{AllocError, Global};
use std::sync::Arc;
use std::test::Fail;

/// What is reached, as the numbers of cells; all cells that were met; whether the root pair is
/// reached; and how many new cells come at most.
#[derive(Drop)]
pub struct Reached {
    pub reads: Vec<u64>,
    pub writes: Vec<u64>,
    pub met: Vec<u64>,
    pub rises: bool,
    pub most: u64,
}

/// How the search for what a command reaches ends: with the reach; at an extent that the command
/// touches; or with a fault.
#[derive(Drop)]
pub enum Found {
    Reached(Reached),
    Extent,
    Fault(FetchFault),
}

impl Found {
    /// The cells that are read and written, the root pair, and how many cells come, as in
    /// `reads 23, writes 24 25, root pair, 5 new`; what there is none of is left out. Else
    /// `extent`, `damaged 25` with the block, or `fault` for any other one.
    ///
    /// # Errors
    /// Where there is no memory.
    pub fn words(&self, alloc: Global) -> Result<String, AllocError> {
        match self {
            Found::Reached(reached) => reached.words(alloc),
            Found::Extent => String::from_str(alloc, "extent"),
            Found::Fault(FetchFault::Damaged { block, fault: _ }) => {
                let block = block.0;
                format!(in alloc; "damaged {block}")
            }
            Found::Fault(_) => String::from_str(alloc, "fault"),
        }
    }

    /// All cells that were met, as in `met 23 22`; none where the reach was not found.
    ///
    /// # Errors
    /// Where there is no memory.
    pub fn met_words(&self, alloc: Global) -> Result<String, AllocError> {
        let mut out = String::new(alloc);
        if let Found::Reached(reached) = self {
            put_cells(alloc, &mut out, "met", reached.met.as_slice())?;
        }
        Ok(out)
    }
}

impl Reached {
    // The words of a reach.
    fn words(&self, alloc: Global) -> Result<String, AllocError> {
        let mut out = String::new(alloc);
        put_cells(alloc, &mut out, "reads", self.reads.as_slice())?;
        put_cells(alloc, &mut out, "writes", self.writes.as_slice())?;
        if self.rises {
            begin(&mut out)?;
            out.push_str("root pair")?;
        }
        if self.most > 0 {
            begin(&mut out)?;
            let most = self.most;
            out.push_str(format!(in alloc; "{most} new")?.as_str())?;
        }
        Ok(out)
    }
}

// A comma behind what is there.
fn begin(out: &mut String) -> Result<(), AllocError> {
    if out.is_empty() {
        return Ok(());
    }
    out.push_str(", ")
}

// A word with numbers of cells, if there are some.
fn put_cells(alloc: Global, out: &mut String, word: &str, cells: &[u64]) -> Result<(), AllocError> {
    if cells.is_empty() {
        return Ok(());
    }
    begin(out)?;
    out.push_str(word)?;
    for cell in cells {
        out.push_str(format!(in alloc; " {cell}")?.as_str())?;
    }
    Ok(())
}

// The numbers of cells, in their order.
fn numbers(alloc: Global, cells: &[Arc<Cell>]) -> Result<Vec<u64>, AllocError> {
    let mut numbers = Vec::new(alloc);
    for cell in cells {
        numbers.push(cell.id().0)?;
    }
    Ok(numbers)
}

/// What a command reaches in a tree on a device, which notes what is read from then on.
///
/// # Errors
/// Where there is no memory for the answer, or the root is not on a device of `BLOCKS` blocks.
pub fn reach(
    alloc: Global,
    dev: &mut Counting,
    root: Root,
    command: &Command,
) -> Result<Found, Fail>
    requires { HasBytePaths command.now }
{
    dev.reads.clear();
    dev.again = 0;
    if dev.blocks()? != BLOCKS || root.id.0 >= BLOCKS || root.height < 2 {
        return Err(Fail::from("the root is not on the device"));
    }
    let buffer = Buffer::new(alloc);
    let pool = Reading::new(dev, &buffer, root, BLOCKS);
    let (pool, found) = reach_in_leaves(alloc, pool, &root, command);
    let _ = pool.into_device();
    match found {
        Ok(Some(reach)) => Ok(Found::Reached(numbers_of(alloc, &reach)?)),
        Ok(None) => Ok(Found::Extent),
        Err(fault) => Ok(Found::Fault(fault)),
    }
}

// What a reach is by numbers.
fn numbers_of(alloc: Global, reach: &Reach) -> Result<Reached, AllocError> {
    Ok(Reached {
        reads: numbers(alloc, reach.reads.as_slice())?,
        writes: numbers(alloc, reach.writes.as_slice())?,
        met: numbers(alloc, reach.met.as_slice())?,
        rises: reach.root.is_some(),
        most: reach.most,
    })
}

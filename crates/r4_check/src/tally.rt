//! What a walk counts, and the faults that it prints.

ghost use Rattle.std.specs.Prelude.{◌≡◌, ℕ, ◌+◌, ◌<◌, ◌≤◌, ◌/◌, not, length, IfOk, OnOk};
ghost use Rattle.std.specs.Option.{option_or};
ghost use Rattle.r4_base.specs.Bitmap.{bitmap_count};
ghost use Rattle.r4_cell.specs.Seen.{node_of};
ghost use Rattle.r4_outside.specs.Device.{next};
ghost use Rattle.r4_outside.specs.Sink.{Appends};
ghost use Rattle.r4_space.specs.Bitmaps.{marks};
ghost use Rattle.r4_check.specs.Blocks.{MarksOneMore};
ghost use Rattle.r4_check_objects.specs.Faults.{fault_at, fault_line};
ghost use Rattle.r4_check.specs.Looking.{Gathers, IsTally, TellsOne};
ghost use Rattle.r4_check_objects.specs.Held.{counted};
ghost use Rattle.r4_check.specs.Walk.{leaf_at, nothing_met};

use crate::blocks::{has_block, no_blocks, put_block};
use crate::lines::write_fault;
use crate::look::count_stats;
use r4_base::{Block, BlockNo, LEAF, Memory};
use r4_cell::Cell;
use r4_check_gather::gather_node;
use r4_check_objects::{Fault, Held, What};
use r4_outside::{Failed, Sink};
use std::alloc::Global;

/// What is gathered of the cells of a tree: the number of their stat data, which stands still at 2^64 - 1; what they hold,
/// from the left; and the block of the leftmost leaf.
#[derive(Drop)]
pub struct Gathered {
    pub objects: u64,
    pub found: Vec<Held>,
    pub leaf: Option<u64>,
}

/// What a walk has met so far: which blocks were reached; what was gathered; the number of faults, which stands still
/// at 2^64 - 1; and whether no node was refused and no block was reached twice.
#[derive(Drop)]
pub struct Tally {
    pub reached: Vec<Block>,
    pub gathered: Gathered,
    pub faults: u64,
    pub whole: bool,
}

impl Tally {
    /// Nothing was met on a volume of so many blocks.
    pub fn new(alloc: Global, blocks: u64) -> Result<Tally, Memory>
        requires { blocks ≤ 1048576 }
        ensures size { IfOk result (λ t. length t.reached.items ≡ bitmap_count blocks) }
        ensures nothing { IfOk result (λ t. IsTally blocks nothing_met t) }
    {
        Ok(Tally {
            reached: no_blocks(alloc, blocks)?,
            gathered: Gathered {
                objects: 0,
                found: Vec::new(alloc),
                leaf: None,
            },
            faults: 0,
            whole: true,
        })
    }

    /// Notes that a block is reached: whether that is for the first time.
    pub fn reach(&mut self, b: u64) -> bool
        requires { b / 32736 < length self.old.reached.items }
        ensures first { result ≡ not (marks self.old.reached.items b) }
        ensures reached { (blocks : ℕ) → bitmap_count blocks ≡ length self.old.reached.items
            → MarksOneMore blocks b self.old.reached.items self.new.reached.items }
        ensures gathered { self.new.gathered ≡ self.old.gathered }
        ensures faults { self.new.faults ≡ self.old.faults }
        ensures whole { self.new.whole ≡ self.old.whole }
    {
        let before = has_block(self.reached.as_slice(), b);
        put_block(self.reached.as_mut_slice(), b);
        !before
    }

    /// Gathers what a node in this block holds.
    pub fn gather(&mut self, block: u64, cell: &Cell) -> Result<(), Memory>
        requires { 1 ≤ cell.now.level }
        ensures gathers { OnOk result (Gathers block (node_of cell.now)
            self.old.gathered self.new.gathered) }
        ensures reached { self.new.reached ≡ self.old.reached }
        ensures faults { self.new.faults ≡ self.old.faults }
        ensures whole { self.new.whole ≡ self.old.whole }
    {
        gather_node(&mut self.gathered.found, block, cell)?;
        let stats = count_stats(cell);
        self.gathered.objects = self.gathered.objects.saturating_add(stats);
        self.gathered.leaf = first_leaf(self.gathered.leaf, block, cell);
        Ok(())
    }

    /// Prints a fault and counts it.
    pub fn tell<K: Sink>(&mut self, out: &mut K, b: u64, what: What) -> Result<(), Failed>
        ensures printed { Appends (fault_line (fault_at b what)) (K.state out.old)
            result (K.state out.new) }
        ensures told { TellsOne self.old self.new }
    {
        self.faults = self.faults.saturating_add(1);
        let block = BlockNo(b);
        write_fault(out, Fault { block, what })
    }
}

// The leftmost leaf, after one node more.
fn first_leaf(before: Option<u64>, block: u64, cell: &Cell) -> Option<u64>
    ensures { result ≡ option_or before (leaf_at block (node_of cell.now)) }
{
    match before {
        Some(leaf) => Some(leaf),
        None => leaf_at(block, cell),
    }
}

// The block of a node, where that is a leaf.
fn leaf_at(block: u64, cell: &Cell) -> Option<u64>
    ensures { result ≡ leaf_at block (node_of cell.now) }
{
    if cell.level() == LEAF {
        Some(block)
    } else {
        None
    }
}

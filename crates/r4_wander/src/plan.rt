//! What a commit writes.

ghost use Rattle.std.specs.Prelude.{◌≡◌, map};

use crate::home_block::HomeBlock;
use r4_base::BlockNo;
use r4_cell::Cell;
use std::marker::Model;
use std::sync::Arc;

/// A cell, and the block that it gets.
#[derive(Drop)]
pub struct PlacedCell {
    pub at: BlockNo,
    pub cell: Arc<Cell>,
}

impl Model for PlacedCell {
    ghost use Rattle.std.specs.Arc.{arc_value};
    ghost use Rattle.r4_wander.specs.Seen.{Placed};

    ghost Value = { Placed };

    ghost view = { λ c. record { at = c.at.0; cell = arc_value c.cell } };
}

/// A wandered copy: its original, the block of the copy, and what is written to both.
#[derive(Drop)]
pub struct WanderedCopy {
    pub original: BlockNo,
    pub copy: BlockNo,
    pub block: HomeBlock,
}

impl Model for WanderedCopy {
    ghost use Rattle.r4_wander.specs.Entries.{block_of};
    ghost use Rattle.r4_wander.specs.Seen.{Copy};

    ghost Value = { Copy };

    ghost view = { λ w. record { original = w.original.0; copy = w.copy.0; block = block_of w.block } };
}

/// Blocks in their order.
#[derive(Drop)]
pub struct Blocks {
    pub(crate) items: Vec<BlockNo>,
}

impl Model for Blocks {
    ghost use Rattle.std.specs.Prelude.{List, ℕ, map};

    ghost Value = { List ℕ };

    ghost view = { λ b. map (λ block. block.0) b.items.items };
}

impl Blocks {
    /// These blocks.
    pub fn from_vec(items: Vec<BlockNo>) -> Blocks
        ensures { result ≡ map (λ block. block.0) items.items }
    {
        Blocks { items }
    }

    /// The blocks, to be read.
    pub fn as_slice(&self) -> &[BlockNo]
        ensures { map (λ block. block.0) result.now ≡ self.now }
    {
        self.items.as_slice()
    }
}

/// Placed cells in their order.
#[derive(Drop)]
pub struct PlacedCells {
    pub(crate) items: Vec<PlacedCell>,
}

impl Model for PlacedCells {
    ghost use Rattle.std.specs.Prelude.{List};
    ghost use Rattle.r4_wander.specs.Seen.{Placed};

    ghost Value = { List Placed };

    ghost view = { λ c. c.items.items };
}

impl PlacedCells {
    /// These cells.
    pub fn from_vec(items: Vec<PlacedCell>) -> PlacedCells
        ensures { result ≡ items.items }
    {
        PlacedCells { items }
    }

    /// The cells, to be read.
    pub fn as_slice(&self) -> &[PlacedCell]
        ensures { result.now ≡ self.now }
    {
        self.items.as_slice()
    }
}

/// Wandered copies in their order.
#[derive(Drop)]
pub struct WanderedCopies {
    pub(crate) items: Vec<WanderedCopy>,
}

impl Model for WanderedCopies {
    ghost use Rattle.std.specs.Prelude.{List};
    ghost use Rattle.r4_wander.specs.Seen.{Copy};

    ghost Value = { List Copy };

    ghost view = { λ w. w.items.items };
}

impl WanderedCopies {
    /// These copies.
    pub fn from_vec(items: Vec<WanderedCopy>) -> WanderedCopies
        ensures { result ≡ items.items }
    {
        WanderedCopies { items }
    }

    /// The copies, to be read.
    pub fn as_slice(&self) -> &[WanderedCopy]
        ensures { result.now ≡ self.now }
    {
        self.items.as_slice()
    }
}

/// What a commit writes: the cells that get a block, the copies, and the transaction that names them. `prev` is the head
/// that the journal header names before; the last three numbers are those that the head and the journal footer get.
#[derive(Drop)]
pub struct LogPlan {
    pub id: u64,
    pub prev: BlockNo,
    pub head: BlockNo,
    pub records: Blocks,
    pub placed: PlacedCells,
    pub wandered: WanderedCopies,
    pub free_blocks: u64,
    pub nr_files: u64,
    pub next_oid: u64,
}

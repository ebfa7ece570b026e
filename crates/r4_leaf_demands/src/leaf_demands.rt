//! The demands of a command whose edits are of leaves alone (docs/volume.md, "Reach").

ghost use Rattle.std.specs.Prelude.{◌≡◌, map};
ghost use Rattle.r4_content.specs.Held.{edits_of, interval_of};
ghost use Rattle.r4_leaf_demands.specs.Leaves.{AreLeafEdits};

use crate::measuring::leaf_asks;
use crate::touching::{Way, extents_have, low_range};
use crate::weighing::{needing, node_more};
use r4_base::{LEAF, Memory};
use r4_cell::Cell;
use r4_content::{Edits, Interval};
use r4_marking::{Asking, Demands, Heard};
use r4_suited::{meets_intervals, touches_leaf};
use std::alloc::Global;
use std::marker::Model;

/// What a command whose edits are of leaves alone asks of each cell, by its edits and the keys that it reads: a leaf
/// that has a changed key is measured with the edits that it gets, and a node counts the pointers that come. No step is
/// taken for a byte (docs/volume.md, "Reach").
#[derive(Drop)]
pub struct LeafDemands<'a> {
    edits: &'a Edits,
    reads: &'a [Interval],
}

impl<'a> Model for LeafDemands<'a> {
    ghost use Rattle.std.specs.Prelude.{map};
    ghost use Rattle.r4_content.specs.Held.{edits_of, interval_of};
    ghost use Rattle.r4_leaf_demands.specs.Leaves.{AreLeafEdits, DemandsSeen};

    ghost Value = { DemandsSeen };

    ghost view = { λ d. record { edits = d.edits.now; reads = map interval_of d.reads.now } };

    ghost invariant = { λ d. AreLeafEdits (edits_of d.edits.now) };
}

impl<'a> LeafDemands<'a> {
    /// The demands of these edits and of these keys that are read. Leaves can take the edits, and each leaf can be
    /// parted after them (docs/volume.md, "Reach").
    pub fn new(edits: &'a Edits, reads: &'a [Interval]) -> LeafDemands<'a>
        requires { AreLeafEdits (edits_of edits.now) }
        ensures edits { result.edits ≡ edits.now }
        ensures reads { result.reads ≡ map interval_of reads.now }
    {
        LeafDemands { edits, reads }
    }
}

impl<'a> Demands for LeafDemands<'a> {
    ghost use Rattle.r4_content.specs.Held.{edits_of};
    ghost use Rattle.r4_leaf_demands.specs.Leaves.{leaf_demand};

    ghost demand = { λ d. leaf_demand (edits_of d.edits) d.reads };

    fn asks(&self, alloc: Global, cell: &Cell, heard: &[Heard]) -> Result<Option<Asking>, Memory> {
        if cell.level() == LEAF {
            return leaf_asks(alloc, self.edits, cell);
        }
        Ok(needing(node_more(cell, heard)))
    }

    fn changes_at(&self, cell: &Cell) -> bool {
        if cell.level() > LEAF {
            return extents_have(Way::Change, self.edits, self.reads, cell);
        }
        let range = low_range(cell);
        touches_leaf(self.edits, &range.from, &range.to)
    }

    fn reads_at(&self, cell: &Cell) -> bool {
        if cell.level() > LEAF {
            return extents_have(Way::Read, self.edits, self.reads, cell);
        }
        meets_intervals(&low_range(cell), self.reads)
    }

    fn turns(&self, _: &Cell) -> bool {
        false
    }

    fn beside(&self, alloc: Global, _: &Cell) -> Result<Vec<u64>, Memory> {
        Ok(Vec::new(alloc))
    }
}

//! The demands of a command, bodies in extents included (docs/volume.md, "Reach").

ghost use Rattle.std.specs.Prelude.{◌≡◌, ◌≤◌, ◌==◌, ◌||◌, length, map, not};
ghost use Rattle.std.specs.Option.{option_copied};
ghost use Rattle.r4_units.specs.r4_cell.Seen.{node_of};
ghost use Rattle.r4_content.specs.Held.{edits_of, interval_of};
ghost use Rattle.r4_twig_asks.specs.r4_marking.Marks.{heard_seen};
ghost use Rattle.r4_twig_asks.specs.r4_reach.Needs.{is_touched};
ghost use Rattle.r4_twig_asks.specs.r4_extent_demands.Sizes.{AreExtentEdits};

use crate::leaves::leaf_asks;
use crate::left::left_leaves;
use crate::nodes::node_asks;
use r4_base::{LEAF, Memory, TWIG};
use r4_content::{Edits, Interval};
use r4_twig_asks::{
    Asking, Demands, Heard, SizedBody, Way, changes_pieces, extents_have, low_range,
    meets_intervals, twig_asks,
};
use r4_units::Cell;
use std::alloc::Global;
use std::marker::Model;

/// What a command asks of each cell, by the body that it changes, its edits, and the keys that it reads and changes,
/// wherever these lie: a leaf that has a changed key is measured with the edits that it gets, a twig with the pieces
/// that it has afterwards, and a node above counts the pointers that come and go. No step is taken for a byte
/// (docs/volume.md, "Reach").
#[derive(Drop)]
pub struct ExtentDemands<'a> {
    body: Option<&'a SizedBody>,
    edits: &'a Edits,
    reads: &'a [Interval],
    changes: &'a [Interval],
}

impl<'a> Model for ExtentDemands<'a> {
    ghost use Rattle.std.specs.Option.{option_copied};
    ghost use Rattle.std.specs.Prelude.{map};
    ghost use Rattle.r4_content.specs.Held.{edits_of, interval_of};
    ghost use Rattle.r4_twig_asks.specs.r4_extent_demands.Sizes.{AreExtentEdits};
    ghost use Rattle.r4_extent_asks.specs.Demands.{DemandsSeen};

    ghost Value = { DemandsSeen };

    ghost view = { λ d. record {
      body = option_copied d.body;
      edits = d.edits.now;
      reads = map interval_of d.reads.now;
      changes = map interval_of d.changes.now;
    } };

    ghost invariant = { λ d. AreExtentEdits (option_copied d.body) (edits_of d.edits.now) };
}

impl<'a> ExtentDemands<'a> {
    /// The demands of these edits, of these keys that are read and of these that are changed, where the edits change
    /// this body, if one. Leaves can take the edits, and each leaf can be parted after them (docs/volume.md, "Reach").
    pub fn new(
        body: Option<&'a SizedBody>,
        edits: &'a Edits,
        reads: &'a [Interval],
        changes: &'a [Interval],
    ) -> ExtentDemands<'a>
        requires { AreExtentEdits (option_copied body) (edits_of edits.now) }
        ensures body { result.body ≡ option_copied body.entry }
        ensures edits { result.edits ≡ edits.now }
        ensures reads { result.reads ≡ map interval_of reads.now }
        ensures changes { result.changes ≡ map interval_of changes.now }
    {
        ExtentDemands {
            body,
            edits,
            reads,
            changes,
        }
    }
}

// Whether a changed key lies in a leaf, or in an extent of a node above the leaves.
fn is_touched(changes: &[Interval], cell: &Cell) -> bool
    requires { 1 ≤ cell.now.level }
    ensures { result ≡ is_touched (map interval_of changes.now) (node_of cell.now) }
{
    if cell.level() == LEAF {
        return meets_intervals(&low_range(cell), changes);
    }
    extents_have(Way::Meets(changes), cell)
}

// Whether a node asks for something: a changed key lies there, or one that it names asks.
fn is_asked(changes: &[Interval], cell: &Cell, heard: &[Heard]) -> bool
    requires { 1 ≤ cell.now.level }
    ensures { result ≡ (is_touched (map interval_of changes.now) (node_of cell.now)
        || not (length (map heard_seen heard.now) == 0)) }
{
    if is_touched(changes, cell) {
        return true;
    }
    !heard.is_empty()
}

impl<'a> Demands for ExtentDemands<'a> {
    ghost use Rattle.r4_content.specs.Held.{edits_of};
    ghost use Rattle.r4_twig_asks.specs.r4_reach.Needs.{demand_of};

    ghost demand = { λ d. demand_of d.body (edits_of d.edits) d.reads d.changes };

    fn asks(&self, alloc: Global, cell: &Cell, heard: &[Heard]) -> Result<Option<Asking>, Memory> {
        if !is_asked(self.changes, cell, heard) {
            return Ok(None);
        }
        if cell.level() == LEAF {
            return leaf_asks(alloc, self.body, self.edits, cell);
        }
        if cell.level() == TWIG {
            return twig_asks(alloc, self.body, self.edits, cell, heard);
        }
        Ok(node_asks(self.body, cell, heard))
    }

    fn changes_at(&self, cell: &Cell) -> bool {
        if cell.level() > LEAF {
            return extents_have(Way::Kind(false, self.changes), cell);
        }
        meets_intervals(&low_range(cell), self.changes)
    }

    fn reads_at(&self, cell: &Cell) -> bool {
        if cell.level() > LEAF {
            return extents_have(Way::Meets(self.reads), cell)
                || extents_have(Way::Kind(true, self.changes), cell);
        }
        meets_intervals(&low_range(cell), self.reads)
    }

    fn turns(&self, cell: &Cell) -> bool {
        if cell.level() != TWIG {
            return false;
        }
        is_touched(self.changes, cell) && changes_pieces(self.body, self.edits, cell)
    }

    fn beside(&self, alloc: Global, cell: &Cell) -> Result<Vec<u64>, Memory> {
        if cell.level() == TWIG {
            return left_leaves(alloc, self.body, cell);
        }
        Ok(Vec::new(alloc))
    }
}

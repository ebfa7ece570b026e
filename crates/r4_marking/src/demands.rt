//! What a change asks of cells, one cell at a time.

ghost use Rattle.std.specs.Prelude.{◌≡◌, ◌+◌, ◌≤◌, ◌↔◌, length, map, true, IfOk, IfSome};
ghost use Rattle.std.specs.Option.{option_map};
ghost use Rattle.r4_base.specs.Node.{items_of};
ghost use Rattle.r4_search.specs.r4_cell.Seen.{node_of};
ghost use Rattle.r4_marking.specs.Marks.{AreSmall, ask_seen, heard_seen, most_for};
ghost use Rattle.r4_reach.specs.Demand.{Demand};
ghost use Rattle.r4_reach.specs.Needs.{Ask};
ghost use Rattle.r4_reach.specs.Reach.{IsReadAt, IsWrittenAt};

use r4_base::Memory;
use r4_search::{Cell, Child};
use std::alloc::Global;

/// What a cell asks of the one that names it: so many pointers more, and that the one to it goes
/// (docs/volume.md, "Reach").
#[derive(Clone, Copy, Debug, PartialEq, Eq)]
pub struct Asking {
    pub more: u64,
    pub gone: bool,
}

/// A cell as it is named, and what it asks for.
#[derive(Clone, Copy, Debug)]
pub struct Heard {
    pub child: Child,
    pub ask: Asking,
}

/// A change, by what it asks of each cell (docs/volume.md, "Reach").
pub trait Demands {
    /// The keys that it reads and changes, and what cells ask for.
    ghost demand: { Self → Demand Ask };

    /// What a node asks for, where the ones that it names ask for this, in the order of its names: at most one for
    /// each of its items. Each asks for few pointers, and so does the node.
    fn asks(&self, alloc: Global, cell: &Cell, heard: &[Heard]) -> Result<Option<Asking>, Memory>
        requires node { 1 ≤ cell.now.level }
        requires few { length heard.now ≤ length (items_of cell.now.block) }
        requires small { AreSmall (most_for cell.now.level) heard.now }
        ensures asks { IfOk result (λ a. option_map ask_seen a
            ≡ (demand self.now).asks (node_of cell.now) (map heard_seen heard.now)) }
        ensures small { IfOk result (λ o. IfSome o (λ a. a.more ≤ most_for (cell.now.level + 1))) };

    /// Whether a key that it changes lies there: in the leaf or the data block, or, of no body, in an extent of the
    /// twig.
    fn changes_at(&self, cell: &Cell) -> bool
        ensures { (result ≡ true) ↔ IsWrittenAt (demand self.now) (node_of cell.now) };

    /// Whether a key that it reads lies there, or in an extent of the twig one of a body that it changes.
    fn reads_at(&self, cell: &Cell) -> bool
        ensures { (result ≡ true) ↔ IsReadAt (demand self.now) (node_of cell.now) };

    /// Whether an extent's unit comes or goes in the twig, or another item comes among its extents.
    fn turns(&self, cell: &Cell) -> bool
        ensures { result ≡ (demand self.now).turns (node_of cell.now) };

    /// The numbers of the leaves below the twig that get another range though none of their keys is changed.
    fn beside(&self, alloc: Global, cell: &Cell) -> Result<Vec<u64>, Memory>
        ensures { IfOk result (λ v. v.items
            ≡ map (λ n. n.id) ((demand self.now).beside (node_of cell.now))) };
}

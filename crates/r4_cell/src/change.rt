//! Changes: cells that take the place of others.

ghost use Rattle.std.specs.Prelude.{◌≡◌, [], length, map};

use crate::cell::Cell;
use r4_base::NodeId;
use std::alloc::Global;
use std::marker::Model;
use std::sync::Arc;

/// The root: its name, and its level, which is the height of the tree.
#[derive(Clone, Copy, Debug, PartialEq, Eq)]
pub struct Root {
    pub id: NodeId,
    pub height: u8,
}

/// Numbers for new nodes, from `next` up to `end`, each at least 2^63.
#[derive(Clone, Copy, Debug, PartialEq, Eq)]
pub struct Fresh {
    pub next: u64,
    pub end: u64,
}

/// Cells in their order, shared with all that have them.
#[derive(Drop)]
pub struct Cells {
    items: Vec<Arc<Cell>>,
}

impl Model for Cells {
    ghost use Rattle.std.specs.Prelude.{List, map};
    ghost use Rattle.std.specs.Arc.{arc_value};
    ghost use Rattle.r4_cell.specs.Seen.{CellSeen};

    ghost Value = { List CellSeen };

    ghost view = { λ c. map (λ cell. arc_value cell) c.items.items };
}

impl Cells {
    ghost use Rattle.std.specs.Arc.{arc_value};

    /// No cells.
    pub fn new(alloc: Global) -> Cells
        ensures { result ≡ [] }
    {
        Cells {
            items: Vec::new(alloc),
        }
    }

    /// These cells.
    pub fn from_vec(items: Vec<Arc<Cell>>) -> Cells
        ensures { result ≡ map (λ cell. arc_value cell) items.items }
    {
        Cells { items }
    }

    /// The cells, to be read.
    pub fn as_slice(&self) -> &[Arc<Cell>]
        ensures { map (λ cell. arc_value cell) result.now ≡ self.now }
    {
        self.items.as_slice()
    }

    /// The cells, which are moved and not copied.
    pub fn into_vec(self) -> Vec<Arc<Cell>>
        ensures { map (λ cell. arc_value cell) result.items ≡ self }
    {
        self.items
    }
}

/// A change of a tree: the cells `old` of it are replaced by the cells `new`, and where the root changes, `root` is the
/// new one (docs/volume.md, "Changes").
#[derive(Drop)]
pub struct Change {
    pub old: Cells,
    pub new: Cells,
    pub root: Option<Root>,
}

//! A cell in memory, and what it stands there for.

ghost use Rattle.std.specs.Prelude.{◌≡◌};
ghost use Rattle.std.specs.Arc.{arc_value};
ghost use Rattle.r4_buffer.specs.Seen.{EntrySeen, is_idle};

use r4_search::Cell;
use std::marker::Model;
use std::sync::Arc;

/// A cell, how many tasks that are out use it, and whether an atom owns it.
#[derive(Drop)]
pub struct Entry {
    cell: Arc<Cell>,
    uses: u32,
    dirty: bool,
}

impl Model for Entry {
    ghost use Rattle.std.specs.Arc.{arc_value};
    ghost use Rattle.r4_buffer.specs.Seen.{EntrySeen};

    ghost Value = { EntrySeen };

    ghost view = { λ e. record { cell = arc_value e.cell; uses = e.uses; dirty = e.dirty } };
}

impl Entry {
    pub fn new(cell: Arc<Cell>, uses: u32, dirty: bool) -> Entry
        ensures { result ≡ record { cell = arc_value cell; uses = uses; dirty = dirty } }
    {
        Entry { cell, uses, dirty }
    }

    pub fn cell(&self) -> &Arc<Cell>
        ensures { arc_value result.now ≡ self.now.cell }
    {
        &self.cell
    }

    pub fn uses(&self) -> u32
        ensures { result ≡ self.now.uses }
    {
        self.uses
    }

    pub fn is_dirty(&self) -> bool
        ensures { result ≡ self.now.dirty }
    {
        self.dirty
    }

    pub fn is_idle(&self) -> bool
        ensures { result ≡ is_idle self.now }
    {
        !self.dirty && self.uses == 0
    }

    // The cell stays.
    pub fn mark(&mut self, uses: u32, dirty: bool)
        ensures { self.new ≡ record self.old { uses = uses; dirty = dirty } }
    {
        self.uses = uses;
        self.dirty = dirty;
    }

    /// Another cell stands in place of its own.
    pub fn renew(&mut self, cell: Arc<Cell>)
        ensures { self.new ≡ record self.old { cell = arc_value cell } }
    {
        self.cell = cell;
    }
}

//! Which cells are captured, and which may go.

ghost use Rattle.std.specs.Prelude.{◌≡◌, ℕ, ◌<◌, ◌≤◌, ◌&&◌, not, if◌then◌else◌, nat_lt, None, Some, IsTrue, IfOk, OnOk, OnErr, filter, map};
ghost use Rattle.std.specs.Arc.{arc_value};
ghost use Rattle.r4_base.specs.Key.{rank};
ghost use Rattle.r4_buffer.specs.Seen.{buffered, idle_count, is_above, is_above_dirty, is_captured, is_captured_by, is_idle, is_loose};
ghost use Rattle.std.specs.Map.{keys_of};
ghost use Rattle.r4_buffer.specs.Changed.{dropped, in_turn, swept};

use crate::buffer::Buffer;
use crate::entry::Entry;
use r4_base::{Memory, NodeId};
use r4_search::Cell;
use std::alloc::Global;

impl Buffer {
    /// Whether the cell of a name is captured: it is dirty, or by its level and range an ancestor
    /// of a dirty one. All entries are looked at where it is not dirty.
    pub fn is_captured(&self, id: NodeId) -> bool
        ensures { result ≡ is_captured self.now id.0 }
    {
        match self.entries.get(&id.0) {
            Some(entry) => entry.is_dirty() || self.is_above_dirty(entry.cell()),
            None => false,
        }
    }

    /// Where more than `most` cells are neither dirty nor used, those of them go that are no
    /// ancestors of dirty ones; else all stay. The only error is want of memory, and then all stay.
    pub fn sweep(&mut self, alloc: Global, most: u64) -> Result<(), Memory>
        ensures ok { OnOk result ((i : ℕ) → buffered self.new i ≡
            if nat_lt most (idle_count self.old) then swept self.old (buffered self.old i) else
            buffered self.old i) }
        ensures err { OnErr result (self.new ≡ self.old) }
        ensures spare { self.new.spare ≡ self.old.spare }
    {
        self.lawful();
        if most < self.idle_count() {
            let ids = self.loose(alloc)?;
            self.take_all(ids.as_slice());
        }
        Ok(())
    }

    // How many cells are neither dirty nor used.
    fn idle_count(&self) -> u64
        ensures { result ≡ idle_count self.now }
    {
        self.entries.values().filter(|e| e.is_idle()).count() as u64
    }

    // The names of the cells that are neither used nor captured.
    fn loose(&self, alloc: Global) -> Result<Vec<u64>, Memory>
        ensures { IfOk result (λ v.
            v.items ≡ keys_of (filter (λ e. is_loose self.now e.1) self.now.entries)) }
    {
        self.entries
            .iter()
            .filter(|e| self.is_loose(e.1))
            .map(|e| *e.0)
            .collect(alloc)
    }

    fn is_loose(&self, entry: &Entry) -> bool
        ensures { result ≡ is_loose self.now entry.now }
    {
        entry.is_idle() && !self.is_above_dirty(entry.cell())
    }

    // Takes the entries of these names away.
    fn take_all(&mut self, ids: &[u64])
        ensures buffered { (i : ℕ) →
            buffered self.new i ≡ in_turn dropped ids.now i (buffered self.old i) }
        ensures spare { self.new.spare ≡ self.old.spare }
    {
        for id in ids {
            self.take(NodeId(*id));
        }
    }

    // Whether a cell is an ancestor of a dirty one.
    fn is_above_dirty(&self, cell: &Cell) -> bool
        ensures { result ≡ is_above_dirty self.now cell.now }
    {
        self.entries
            .values()
            .any(|e| e.is_dirty() && is_above(cell, e.cell()))
    }
}

// Whether a cell is above another one: of a higher level, and with its least key in its range.
fn is_above(cell: &Cell, below: &Cell) -> bool
    ensures { result ≡ is_above cell.now below.now }
{
    below.level() < cell.level()
        && !below.lo().is_below(cell.lo())
        && below.lo().is_below(cell.hi())
}

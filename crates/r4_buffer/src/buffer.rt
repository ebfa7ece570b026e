//! The cells in memory, by their names.

ghost use Rattle.std.specs.Prelude.{◌≡◌, ℕ, ◌+◌, ◌-◌, ◌<◌, ◌≤◌, ◌==◌, [], max, None, Some, option_copied, if◌then◌else◌, IsOk, OnOk, OnErr};
ghost use Rattle.std.specs.Arc.{arc_value};
ghost use Rattle.std.specs.Option.{option_map};
ghost use Rattle.r4_buffer.specs.Seen.{IsLawful, buffered, cell_at, is_above, is_above_dirty, is_captured, is_captured_by, is_dirty_by};
ghost use Rattle.r4_buffer.specs.Changed.{uses_of};

use crate::entry::Entry;
use r4_base::{Memory, NodeId};
use r4_search::Cell;
use std::alloc::Global;
use std::collections::HashMap;
use std::marker::Model;
use std::sync::Arc;

/// The cells in memory, each under its name: **dirty**, where an atom owns it; **used**, by so many
/// tasks that are out; or neither (docs/buffer.md).
#[derive(Drop)]
pub struct Buffer {
    pub(crate) entries: HashMap<u64, Entry>,
    pub(crate) spare: u64,
}

impl Model for Buffer {
    ghost use Rattle.std.specs.HashMap.{spare as places_of};
    ghost use Rattle.r4_buffer.specs.Seen.{BufferSeen};
    ghost use Rattle.r4_buffer.specs.Kept.{IsKept};

    ghost Value = { BufferSeen };

    ghost view = { λ b. record { entries = b.entries.entries; spare = b.spare } };

    ghost invariant = { λ b. IsKept b.entries.entries (places_of b.entries) b.spare };
}

impl Buffer {
    /// No cell, and room for none. It takes no memory.
    pub fn new(alloc: Global) -> Buffer
        ensures { result ≡ record { entries = []; spare = 0 } }
    {
        Buffer {
            entries: HashMap::new(alloc),
            spare: 0,
        }
    }

    /// What holds of all cells in memory. It does nothing.
    pub fn lawful(&self)
        ensures { IsLawful self.now }
    {
        let _ = &self.entries;
    }

    /// For how many more cells there is room.
    pub fn spare(&self) -> u64
        ensures { result ≡ self.now.spare }
    {
        self.spare
    }

    /// Makes room for at least so many more cells. The only error is want of memory.
    pub fn room(&mut self, alloc: Global, cells: u64) -> Result<(), Memory>
        ensures entries { (i : ℕ) → buffered self.new i ≡ buffered self.old i }
        ensures ok { OnOk result (self.new.spare ≡ max self.old.spare cells) }
        ensures enough { cells ≤ self.old.spare → IsOk result }
        ensures err { OnErr result (self.new ≡ self.old) }
    {
        let _ = alloc;
        if self.spare < cells {
            self.entries.reserve(cells as usize)?;
            self.spare = cells;
        }
        Ok(())
    }

    /// The cell of a name.
    pub fn get(&self, id: NodeId) -> Option<&Arc<Cell>>
        ensures { option_map (λ c. arc_value c) (option_copied result) ≡ cell_at self.now id.0 }
    {
        match self.entries.get(&id.0) {
            Some(entry) => Some(entry.cell()),
            None => None,
        }
    }

    /// Whether an atom owns the cell of a name.
    pub fn is_dirty(&self, id: NodeId) -> bool
        ensures { result ≡ is_dirty_by (buffered self.now id.0) }
    {
        match self.entries.get(&id.0) {
            Some(entry) => entry.is_dirty(),
            None => false,
        }
    }

    /// How many tasks that are out use a name.
    pub fn uses(&self, id: NodeId) -> u32
        ensures { result ≡ uses_of (buffered self.now id.0) }
    {
        match self.entries.get(&id.0) {
            Some(entry) => entry.uses(),
            None => 0,
        }
    }
}

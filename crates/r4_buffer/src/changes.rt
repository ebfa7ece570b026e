//! What becomes of the cells in memory.

ghost use Rattle.std.specs.Prelude.{◌≡◌, ◌≢◌, ℕ, ◌+◌, ◌-◌, ◌<◌, ◌≤◌, ◌==◌, ◌&&◌, not, length, map, None, Some, if◌then◌else◌};
ghost use Rattle.std.specs.Arc.{arc_value};
ghost use Rattle.std.specs.Option.{option_map};
ghost use Rattle.r4_buffer.specs.Seen.{EntrySeen, buffered, cells_of, is_captured, is_dirty_by};
ghost use Rattle.r4_buffer.specs.Changed.{cleaned, dropped, forgotten, in_turn, laid_aside, marked, placed, renamed, renewed, replaced, taken, unused, used, uses_of};

use crate::buffer::Buffer;
use crate::entry::Entry;
use r4_base::{BlockNo, NodeId};
use r4_search::Cell;
use std::sync::Arc;

impl Buffer {
    /// One more task uses each of these cells, in order: an entry is made where there is none, one
    /// that nobody uses and that is clean is replaced, and each other one is counted. It takes no
    /// memory, and room for each of these cells.
    pub fn use_all(&mut self, met: Vec<Arc<Cell>>)
        requires { length met.items ≤ self.old.spare }
        ensures buffered { (i : ℕ) → buffered self.new i ≡
            in_turn used (cells_of met.items) i (buffered self.old i) }
        ensures spare { self.new.spare + length met.items ≡ self.old.spare }
    {
        for cell in met {
            self.use_one(cell);
        }
    }

    fn use_one(&mut self, cell: Arc<Cell>)
        requires { 0 < self.old.spare }
        ensures buffered { (i : ℕ) →
            buffered self.new i ≡ used (arc_value cell) i (buffered self.old i) }
        ensures spare { self.new.spare + 1 ≡ self.old.spare }
    {
        let id = cell.id();
        let (uses, dirty) = self.marks(id);
        if uses == 0 && !dirty {
            self.set(Entry::new(cell, 1, false));
        } else {
            self.mark(id, uses.saturating_add(1), dirty);
            self.spare -= 1;
        }
    }

    /// One task less uses each of these names, in order. A name that has no cell is passed over. It
    /// takes no memory.
    pub fn unuse(&mut self, ids: &[NodeId])
        ensures buffered { (i : ℕ) →
            buffered self.new i ≡ in_turn unused ids.now i (buffered self.old i) }
        ensures spare { self.new.spare ≡ self.old.spare }
    {
        for id in ids {
            self.unuse_one(*id);
        }
    }

    fn unuse_one(&mut self, id: NodeId)
        ensures buffered { (i : ℕ) → buffered self.new i ≡ unused id i (buffered self.old i) }
        ensures spare { self.new.spare ≡ self.old.spare }
    {
        let (uses, dirty) = self.marks(id);
        self.mark(id, uses.saturating_sub(1), dirty);
    }

    /// These names are dirty no more. It takes no memory.
    pub fn clean(&mut self, ids: &[NodeId])
        ensures buffered { (i : ℕ) →
            buffered self.new i ≡ in_turn cleaned ids.now i (buffered self.old i) }
        ensures spare { self.new.spare ≡ self.old.spare }
    {
        for id in ids {
            self.clean_one(*id);
        }
    }

    fn clean_one(&mut self, id: NodeId)
        ensures buffered { (i : ℕ) → buffered self.new i ≡ cleaned id i (buffered self.old i) }
        ensures spare { self.new.spare ≡ self.old.spare }
    {
        let (uses, _) = self.marks(id);
        self.mark(id, uses, false);
    }

    /// Puts cells in place of others: the names of `old` that are not among the new ones go; each
    /// new cell stands dirty, with the uses of its name. It takes no memory, and room for each new
    /// cell.
    pub fn put(&mut self, old: &[Arc<Cell>], new: Vec<Arc<Cell>>)
        requires { length new.items ≤ self.old.spare }
        ensures buffered { (i : ℕ) → buffered self.new i ≡
            replaced (cells_of old.now) (cells_of new.items) i (buffered self.old i) }
        ensures spare { self.new.spare + length new.items ≡ self.old.spare }
    {
        self.lay_aside(old);
        self.place(new);
        self.take_clean(old);
    }

    // Old cells count as clean, so that the new ones can be told from them.
    fn lay_aside(&mut self, old: &[Arc<Cell>])
        ensures buffered { (i : ℕ) → buffered self.new i ≡
            in_turn laid_aside (cells_of old.now) i (buffered self.old i) }
        ensures spare { self.new.spare ≡ self.old.spare }
    {
        for cell in old {
            self.lay_one(cell);
        }
    }

    fn lay_one(&mut self, cell: &Cell)
        ensures buffered { (i : ℕ) →
            buffered self.new i ≡ laid_aside cell.now i (buffered self.old i) }
        ensures spare { self.new.spare ≡ self.old.spare }
    {
        let (uses, _) = self.marks(cell.id());
        self.mark(cell.id(), uses, false);
    }

    // New cells stand dirty.
    fn place(&mut self, new: Vec<Arc<Cell>>)
        requires { length new.items ≤ self.old.spare }
        ensures buffered { (i : ℕ) → buffered self.new i ≡
            in_turn placed (cells_of new.items) i (buffered self.old i) }
        ensures spare { self.new.spare + length new.items ≡ self.old.spare }
    {
        for cell in new {
            self.place_one(cell);
        }
    }

    fn place_one(&mut self, cell: Arc<Cell>)
        requires { 0 < self.old.spare }
        ensures buffered { (i : ℕ) →
            buffered self.new i ≡ placed (arc_value cell) i (buffered self.old i) }
        ensures spare { self.new.spare + 1 ≡ self.old.spare }
    {
        let (uses, _) = self.marks(cell.id());
        self.set(Entry::new(cell, uses, true));
    }

    // The old cells go that are still clean.
    fn take_clean(&mut self, old: &[Arc<Cell>])
        ensures buffered { (i : ℕ) → buffered self.new i ≡
            in_turn taken (cells_of old.now) i (buffered self.old i) }
        ensures spare { self.new.spare ≡ self.old.spare }
    {
        for cell in old {
            self.take_one(cell);
        }
    }

    fn take_one(&mut self, cell: &Cell)
        ensures buffered { (i : ℕ) → buffered self.new i ≡ taken cell.now i (buffered self.old i) }
        ensures spare { self.new.spare ≡ self.old.spare }
    {
        if !self.is_dirty(cell.id()) {
            self.take(cell.id());
        }
    }

    /// A cell has another name now: it comes under that, with the uses of the old name and dirty as
    /// that was. A cell that stands under the new name stays there, and is used by the tasks of
    /// both. Where the old name has no cell, all stays. It takes no memory, and room for one cell.
    pub fn rename(&mut self, from: NodeId, cell: Arc<Cell>)
        requires another { from.0 ≢ (arc_value cell).id }
        requires room { 0 < self.old.spare }
        ensures buffered { (i : ℕ) →
            buffered self.new i ≡ renamed self.old from.0 (arc_value cell) i }
        ensures spare { self.new.spare + 1 ≡ self.old.spare }
    {
        let to = cell.id();
        if self.entries.get(&from.0).is_none() {
            self.spare -= 1;
            return;
        }
        let (uses, dirty) = self.marks(from);
        self.take(from);
        if self.entries.get(&to.0).is_some() {
            let (others, is_dirty) = self.marks(to);
            self.mark(to, others.saturating_add(uses), is_dirty);
            self.spare -= 1;
        } else {
            self.set(Entry::new(cell, uses, dirty));
        }
    }

    /// A cell has another block now, and its name: it stands there in place of the one that had the
    /// name, with the uses of that and dirty as that was. Where the name has no cell, all stays. It
    /// takes no memory.
    pub fn renew(&mut self, cell: Arc<Cell>)
        ensures buffered { (i : ℕ) →
            buffered self.new i ≡ renewed (arc_value cell) i (buffered self.old i) }
        ensures spare { self.new.spare ≡ self.old.spare }
    {
        let id = cell.id();
        if let Some(entry) = self.entries.get_mut(&id.0) {
            entry.renew(cell);
        }
    }

    /// The cell of a block goes that will be written with something else, unless it is captured. It
    /// takes no memory.
    pub fn forget(&mut self, block: BlockNo)
        ensures buffered { (i : ℕ) → buffered self.new i ≡
            if block.0 == i then forgotten self.old (buffered self.old i) else buffered self.old i }
        ensures spare { self.new.spare ≡ self.old.spare }
    {
        let id = NodeId(block.0);
        if !self.is_captured(id) {
            self.take(id);
        }
    }

    // How many tasks use a name, and whether it is dirty.
    pub(crate) fn marks(&self, id: NodeId) -> (u32, bool)
        ensures uses { result.0 ≡ uses_of (buffered self.now id.0) }
        ensures dirty { result.1 ≡ is_dirty_by (buffered self.now id.0) }
    {
        (self.uses(id), self.is_dirty(id))
    }

    // Marks an entry, where there is one.
    fn mark(&mut self, id: NodeId, uses: u32, dirty: bool)
        ensures buffered { (i : ℕ) → buffered self.new i ≡
            if id.0 == i then option_map (marked uses dirty) (buffered self.old i) else
            buffered self.old i }
        ensures spare { self.new.spare ≡ self.old.spare }
    {
        if let Some(entry) = self.entries.get_mut(&id.0) {
            entry.mark(uses, dirty);
        }
    }

    // Sets an entry under its cell's name.
    fn set(&mut self, entry: Entry)
        requires { 0 < self.old.spare }
        ensures buffered { (i : ℕ) → buffered self.new i ≡
            if entry.cell.id == i then Some entry else buffered self.old i }
        ensures spare { self.new.spare + 1 ≡ self.old.spare }
    {
        let id = entry.cell().id();
        let _ = self.entries.insert(id.0, entry);
        self.spare -= 1;
    }

    // Takes an entry away.
    pub(crate) fn take(&mut self, id: NodeId)
        ensures buffered { (i : ℕ) → buffered self.new i ≡ dropped id.0 i (buffered self.old i) }
        ensures spare { self.new.spare ≡ self.old.spare }
    {
        let _ = self.entries.remove(&id.0);
    }
}

//! The cache.

ghost use Rattle.std.specs.Prelude.{◌≡◌, ◌<◌, ◌==◌, [], length, option_copied, IfOk, OnOk, OnErr, ⊤};
ghost use Rattle.std.specs.Arc.{arc_value};
ghost use Rattle.std.specs.Borrow.{sem};
ghost use Rattle.std.specs.Option.{option_map};
ghost use Rattle.r4_cache.specs.Cached.{cell_named, in_front, put_in, without, IsLawful};

use lru::LruCache;
use r4_base::{Memory, NodeId};
use r4_cell::Cell;
use std::alloc::Global;
use std::marker::Model;
use std::num::NonZeroUsize;
use std::sync::Arc;

/// Cells by their names, the latest used first, of which there are at most `cap`.
#[derive(Drop)]
pub struct Cache {
    cells: LruCache<u64, Arc<Cell>>,
}

impl Model for Cache {
    ghost use Rattle.r4_cache.specs.Cached.{CacheSeen, Entry, cells_of, IsNamed};

    ghost Value = { CacheSeen };

    ghost view = { λ c. record { entries = cells_of c.cells.entries; cap = c.cells.cap } };

    ghost invariant = { λ c. IsNamed c.cells.entries };
}

impl Cache {
    ghost use Rattle.r4_cache.specs.Lending.{ends_as};

    /// A cache of no cell, for at most `cap` of them, which is above 0. The only error is want of memory.
    pub fn new(alloc: Global, cap: usize) -> Result<Cache, Memory>
        requires { 0 < cap }
        ensures { IfOk result (λ c. c ≡ record { entries = []; cap = cap }) }
    {
        let cap = NonZeroUsize::new(cap).unwrap();
        let cells = LruCache::sparse(alloc, cap)?;
        Ok(Cache { cells })
    }

    /// The number of cells. The names of the cells differ, and there are at most `cap`.
    pub fn len(&self) -> usize
        ensures len { result ≡ length self.now.entries }
        ensures lawful { IsLawful self.now }
    {
        self.cells.len()
    }

    /// Is there no cell?
    pub fn is_empty(&self) -> bool
        ensures { result ≡ (length self.now.entries == 0) }
    {
        self.cells.is_empty()
    }

    /// The cell of this name, which comes to the front. There is none exactly where no entry has the name, and then the
    /// list stays as it is. It takes no memory.
    pub fn get(&mut self, id: NodeId) -> Option<&Arc<Cell>>
        ensures* front { sem 𝓛 (ends_as self.entry (in_front id.0 self.old.entries)) }
        ensures value { option_map (λ c. arc_value c) (option_copied result) ≡ cell_named id.0 self.old.entries }
    {
        self.use_now(id);
        self.peek(id)
    }

    /// Sets a cell in front, in place of an entry of its name, and drops the last entry where more than `cap` stand. On
    /// `Memory` the list is as before.
    pub fn put(&mut self, alloc: Global, cell: Arc<Cell>) -> Result<(), Memory>
        ensures entries { let entries = put_in self.old.cap (arc_value cell) self.old.entries in
            OnOk result (self.new ≡ record self.old { entries = entries }) }
        ensures err { OnErr result (self.new ≡ self.old) }
    {
        let _ = alloc;
        let id = cell.id();
        self.set(id, cell)
    }

    /// Takes the entry of this name out, where there is one. It takes no memory.
    pub fn drop_node(&mut self, id: NodeId)
        ensures { self.new ≡ record self.old { entries = without id.0 self.old.entries } }
    {
        self.cells.pop(&id.0);
    }

    // Brings the entry of this name to the front. It is found there as before.
    fn use_now(&mut self, id: NodeId)
        ensures front { self.new ≡ record self.old { entries = in_front id.0 self.old.entries } }
        ensures found { cell_named id.0 self.new.entries ≡ cell_named id.0 self.old.entries }
    {
        self.cells.promote(&id.0);
    }

    // The cell of this name.
    fn peek(&self, id: NodeId) -> Option<&Arc<Cell>>
        ensures { option_map (λ c. arc_value c) (option_copied result) ≡ cell_named id.0 self.now.entries }
    {
        self.cells.peek(&id.0)
    }

    // Sets a cell in front, under its name.
    fn set(&mut self, id: NodeId, cell: Arc<Cell>) -> Result<(), Memory>
        requires { (arc_value cell).id ≡ id.0 }
        ensures entries { let entries = put_in self.old.cap (arc_value cell) self.old.entries in
            OnOk result (self.new ≡ record self.old { entries = entries }) }
        ensures err { OnErr result (self.new ≡ self.old) }
    {
        // The list is within its bounds.
        let _ = self.cells.len();
        self.cells.put(id.0, cell)?;
        Ok(())
    }
}

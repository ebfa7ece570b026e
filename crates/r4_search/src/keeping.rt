//! A pool that keeps what it answers.

ghost use Rattle.std.specs.Prelude.{◌≡◌, ◌||◌, ℕ, nat_lt, None, true, false, IfOk, IfErr};
ghost use Rattle.std.specs.Arc.{arc_value};
ghost use Rattle.r4_base.specs.Key.{rank};
ghost use Rattle.r4_search.specs.Keeping.{IsAgain, Keeps, WereAnswered, met_in};
ghost use Rattle.r4_search.specs.Pool.{KeepsNone, called, place_fault};

use crate::pool::{FetchFault, Pool};
use r4_base::{BlockNo, CellFault, Key, NodeId};
use r4_cell::Cell;
use std::alloc::Global;
use std::collections::HashMap;
use std::sync::Arc;

/// A pool over a pool that keeps nothing: a cell that was answered is kept, so that no block is read twice, and is
/// answered again (docs/volume.md, "The tree"). It keeps all cells, or the nodes alone.
#[derive(Drop)]
pub struct Keeping<P: Pool> {
    pool: P,
    all: bool,
    met: HashMap<u64, Arc<Cell>>,
    ghost raw: { KeepsNone (P.state pool) },
    ghost sound: { WereAnswered (P.state pool) met.entries },
}

impl<P: Pool> Keeping<P> {
    /// A pool that keeps the nodes that it answers, and no data block. Nothing was met.
    pub fn nodes(alloc: Global, pool: P) -> Keeping<P>
        requires raw { KeepsNone (P.state pool) }
        ensures pool { result.pool ≡ pool }
        ensures nodes { result.all ≡ false }
        ensures empty { (i : ℕ) → met_in result.met.entries i ≡ None }
    {
        Keeping {
            pool,
            all: false,
            met: HashMap::new(alloc),
        }
    }

    /// A pool that keeps all that it answers, data blocks too. Nothing was met.
    pub fn all(alloc: Global, pool: P) -> Keeping<P>
        requires raw { KeepsNone (P.state pool) }
        ensures pool { result.pool ≡ pool }
        ensures all { result.all ≡ true }
        ensures empty { (i : ℕ) → met_in result.met.entries i ≡ None }
    {
        Keeping {
            pool,
            all: true,
            met: HashMap::new(alloc),
        }
    }

    /// The cells that were met, by the numbers of their names.
    pub fn met(&self) -> &HashMap<u64, Arc<Cell>>
        ensures { result.now ≡ self.now.met }
    {
        &self.met
    }

    /// The pool below.
    pub fn into_pool(self) -> P
        ensures { result ≡ self.pool }
    {
        self.pool
    }
}

impl<P: Pool> Pool for Keeping<P> {
    ghost use Rattle.r4_search.specs.Keeping.{keeping_state};

    ghost state = { λ k. keeping_state (P.state k.pool) k.all k.met.entries };

    ghost device = { λ k. P.device k.pool };

    fn faults(&self) -> u64 {
        self.pool.faults()
    }

    fn fetch(
        &mut self,
        alloc: Global,
        id: NodeId,
        level: u8,
        lo: Key,
        hi: Key,
    ) -> Result<Arc<Cell>, FetchFault> {
        if let Some(cell) = self.met.get(&id.0) {
            return again(cell, BlockNo(id.0), level, lo, hi);
        }
        let cell = self.pool.fetch(alloc, id, level, lo, hi)?;
        if is_kept(self.all, level) {
            return keep(&mut self.met, cell);
        }
        Ok(cell)
    }
}

// Whether a cell of a level is kept.
fn is_kept(all: bool, level: u8) -> bool
    ensures { result ≡ (all || nat_lt 0 level) }
{
    all || level > 0
}

// A cell that was met, where it is the one that is asked for.
fn again(
    cell: &Arc<Cell>,
    at: BlockNo,
    level: u8,
    lo: Key,
    hi: Key,
) -> Result<Arc<Cell>, FetchFault>
    ensures ok { IfOk result (λ c. (arc_value c ≡ arc_value cell.now)
        × (place_fault (called at.0 level lo hi) (arc_value cell.now) ≡ None)) }
    ensures err { IfErr result (λ e. IsAgain (called at.0 level lo hi) (arc_value cell.now) e) }
{
    if let Some(fault) = fault_of_place(cell, level, lo, hi) {
        return Err(FetchFault::Damaged { block: at, fault });
    }
    Ok(Arc::try_clone(cell)?)
}

/// Why a cell is not the one of a level and a range: `Level`, else `Range` at item 0.
pub fn fault_of_place(cell: &Cell, level: u8, lo: Key, hi: Key) -> Option<CellFault>
    ensures { (id : ℕ) → result ≡ place_fault (called id level lo hi) cell.now }
{
    if cell.level() != level {
        return Some(CellFault::Level);
    }
    if !cell.lo().is_same(lo) || !cell.hi().is_same(hi) {
        return Some(CellFault::Range { item: 0 });
    }
    None
}

// A cell was met.
fn keep(met: &mut HashMap<u64, Arc<Cell>>, cell: Arc<Cell>) -> Result<Arc<Cell>, FetchFault>
    ensures ok { IfOk result (λ c. arc_value c ≡ arc_value cell) }
    ensures kept { Keeps met.old.entries (arc_value cell) result met.new.entries }
{
    met.insert(cell.id().0, Arc::try_clone(&cell)?)?;
    Ok(cell)
}

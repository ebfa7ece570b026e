//! Looking at the keys of a tree.

ghost use Rattle.std.specs.Prelude.{◌≡◌, ◌<◌, ◌≤◌, ℕ, [], true, None, IfErr, IfOk, OnOk};
ghost use Rattle.r4_base.specs.Key.{least, rank, top};
ghost use Rattle.r4_content.specs.Held.{pairs_of};
ghost use Rattle.r4_content.specs.Seen.{Rises};
ghost use Rattle.r4_search.specs.Path.{root_name};
ghost use Rattle.r4_search.specs.Pool.{Goes, IsKnown, LeavesDevice};
ghost use Rattle.r4_seeing.specs.Known.{AreKnown, AreNew};
ghost use Rattle.r4_seeing.specs.Looking.{IsLooking, KnowsBetween, KnowsMore, MeetsBetween};
ghost use Rattle.r4_seeing.specs.Looking.{StopsBetween};

use crate::gaps::{Gap, how_far};
use crate::places::note;
use r4_base::Key;
use r4_cell::Root;
use r4_content::{Interval, Seen};
use r4_search::{FetchFault, Pool};
use r4_sight::stretch_from;
use std::alloc::Global;
use std::marker::Model;

/// What was seen of a tree over a pool that keeps all that it met, and the keys that were looked at
/// (docs/volume.md, "Sight").
#[derive(Drop)]
pub(crate) struct Looking<P: Pool> {
    pub pool: P,
    root: Root,
    pub seen: Seen,
    known: Vec<Interval>,
}

impl<P: Pool> Model for Looking<P> {
    ghost use Rattle.std.specs.Prelude.{map};
    ghost use Rattle.r4_content.specs.Held.{interval_of};
    ghost use Rattle.r4_seeing.specs.Looking.{IsLooking, LookingSeen};

    ghost Value = { LookingSeen P };

    ghost view = { λ l. record {
      pool = l.pool;
      root = l.root;
      seen = l.seen;
      known = map interval_of l.known.items;
    } };

    ghost invariant = { λ l. IsLooking (P.state l.pool) l.root l.seen.parts.items
        (map interval_of l.known.items) };
}

impl<P: Pool> Looking<P> {
    /// Nothing was looked at, and nothing met.
    pub fn new(alloc: Global, pool: P, root: Root) -> Looking<P>
        requires some { 1 ≤ root.height }
        requires known { IsKnown (P.state pool) (root_name root) }
        requires keeps { (level : ℕ) → (P.state pool).keeps level ≡ true }
        requires none { (i : ℕ) → (P.state pool).met i ≡ None }
        ensures pool { result.pool ≡ pool }
        ensures root { result.root ≡ root }
        ensures seen { result.seen.parts.items ≡ [] }
        ensures known { result.known ≡ [] }
    {
        Looking {
            pool,
            root,
            seen: Seen {
                parts: Vec::new(alloc),
            },
            known: Vec::new(alloc),
        }
    }

    /// What was seen so far.
    pub fn seen(&self) -> &Seen
        ensures same { result.now ≡ self.now.seen }
        ensures rises { Rises (pairs_of result.now) }
    {
        &self.seen
    }

    /// The pool, and what was seen.
    pub fn into_parts(self) -> (P, Seen)
        ensures pool { result.0 ≡ self.pool }
        ensures seen { result.1 ≡ self.seen }
    {
        let Looking {
            pool,
            root: _,
            seen,
            known: _,
        } = self;
        (pool, seen)
    }

    /// What holds of all that is known. It does nothing.
    pub fn lawful(&self)
        ensures { IsLooking (P.state self.now.pool) self.now.root self.now.seen.parts.items
            self.now.known }
    {
        let _ = &self.pool;
    }

    /// Looks at each key of an interval of the tree, and at no other. What was known stays, and each cell that is met
    /// has one of these keys. Where a look-up ends with a fault, it is at one of them.
    pub fn look(&mut self, alloc: Global, from: Key, to: Key) -> Result<(), FetchFault>
        requires from { least ≤ rank from }
        requires to { rank to ≤ top }
        ensures goes { Goes (P.state self.old.pool) (P.state self.new.pool) }
        ensures device { LeavesDevice (P.device self.old.pool) (P.device self.new.pool) }
        ensures more { KnowsMore self.old self.new }
        ensures looked { OnOk result (AreKnown self.new.known (rank from) (rank to)) }
        ensures met { MeetsBetween (rank from) (rank to) (P.state self.old.pool)
            (P.state self.new.pool) }
        ensures only { KnowsBetween (rank from) (rank to) self.old.known self.new.known }
        ensures err { IfErr result (λ e. StopsBetween (rank from) (rank to)
            (P.state self.old.pool) e (P.state self.new.pool)) }
    {
        let mut at = from;
        while at.is_below(to) {
            at = self.look_on(alloc, at, to)?;
        }
        Ok(())
    }

    // Looks at keys from one on: at those that are known nothing is read.
    fn look_on(&mut self, alloc: Global, at: Key, to: Key) -> Result<Key, FetchFault>
        requires from { least ≤ rank at }
        requires order { rank at < rank to }
        requires to { rank to ≤ top }
        ensures goes { Goes (P.state self.old.pool) (P.state self.new.pool) }
        ensures device { LeavesDevice (P.device self.old.pool) (P.device self.new.pool) }
        ensures more { KnowsMore self.old self.new }
        ensures onward { IfOk result (λ k. rank at < rank k) }
        ensures looked { IfOk result (λ k. AreKnown self.new.known (rank at) (rank k)) }
        ensures met { MeetsBetween (rank at) (rank to) (P.state self.old.pool)
            (P.state self.new.pool) }
        ensures only { KnowsBetween (rank at) (rank to) self.old.known self.new.known }
        ensures err { IfErr result (λ e. StopsBetween (rank at) (rank to) (P.state self.old.pool) e
            (P.state self.new.pool)) }
    {
        match how_far(&self.known, at, to) {
            Gap::Known(key) => Ok(key),
            Gap::New(end) => self.read_on(alloc, at, end),
        }
    }

    // Reads what stands at keys from one on, which are new up to an end.
    fn read_on(&mut self, alloc: Global, at: Key, end: Key) -> Result<Key, FetchFault>
        requires from { least ≤ rank at }
        requires order { rank at < rank end }
        requires to { rank end ≤ top }
        requires new { AreNew self.old.known (rank at) (rank end) }
        ensures goes { Goes (P.state self.old.pool) (P.state self.new.pool) }
        ensures device { LeavesDevice (P.device self.old.pool) (P.device self.new.pool) }
        ensures more { KnowsMore self.old self.new }
        ensures onward { IfOk result (λ k. rank at < rank k) }
        ensures looked { IfOk result (λ k. AreKnown self.new.known (rank at) (rank k)) }
        ensures met { MeetsBetween (rank at) (rank end) (P.state self.old.pool)
            (P.state self.new.pool) }
        ensures only { KnowsBetween (rank at) (rank end) self.old.known self.new.known }
        ensures err { IfErr result (λ e. StopsBetween (rank at) (rank end) (P.state self.old.pool) e
            (P.state self.new.pool)) }
    {
        let stretch = stretch_from(alloc, &mut self.pool, &self.root, at, end)?;
        let to = stretch.to;
        let within = Interval { from: at, to };
        note(&mut self.seen, &mut self.known, within, stretch.parts)?;
        Ok(to)
    }
}

//! What a command has seen, over a pool.

ghost use Rattle.std.specs.Prelude.{◌≡◌, ◌⊎◌, ◌≤◌, ℕ, [], true, None, map, reverse};
ghost use Rattle.r4_base.specs.Key.{least, rank, top};
ghost use Rattle.r4_content.specs.Edited.{is_between};
ghost use Rattle.r4_gather.specs.Finding.{asked_keys};
ghost use Rattle.r4_search.specs.Path.{root_name};
ghost use Rattle.r4_search.specs.Pool.{IsKnown};
ghost use Rattle.r4_seeing.specs.Looking.{IsLooking};
ghost use Rattle.r4_seeing.specs.Seeing.{IsNotedFault, IsSeeing};

use crate::looking::Looking;
use r4_base::Key;
use r4_cell::{Root, least, top};
use r4_content::{Interval, Seen};
use r4_gather::{Asked, Sight};
use r4_search::{FetchFault, Pool};
use r4_sight::key_after;
use std::alloc::Global;
use std::marker::Model;

/// What a command has seen of the tree of a pool that keeps all that it met: at each key that was asked for just what
/// the cell has there that holds the key and was met, or that it has nothing (docs/volume.md, "Sight"). Nothing is
/// looked at twice. After a look-up that ended with a fault, each further one ends with that fault too.
#[derive(Drop)]
pub struct Seeing<P: Pool> {
    looking: Looking<P>,
    asked: Vec<Asked>,
    fault: Option<FetchFault>,
}

impl<P: Pool> Model for Seeing<P> {
    ghost use Rattle.std.specs.Prelude.{map, reverse};
    ghost use Rattle.r4_gather.specs.Finding.{asked_keys};
    ghost use Rattle.r4_seeing.specs.Seeing.{IsSeeing, SeeingSeen};

    ghost Value = { SeeingSeen P };

    ghost view = { λ s. record {
      looking = s.looking;
      asked = reverse (map asked_keys s.asked.items);
      fault = s.fault;
    } };

    ghost invariant = { λ s. IsSeeing (P.state s.looking.pool) s.looking.known
        (reverse (map asked_keys s.asked.items)) s.fault };
}

impl<P: Pool> Seeing<P> {
    /// Nothing was asked for, and nothing met. The pool keeps all that it answers, and knows the root.
    pub fn new(alloc: Global, pool: P, root: Root) -> Seeing<P>
        requires some { 1 ≤ root.height }
        requires known { IsKnown (P.state pool) (root_name root) }
        requires keeps { (level : ℕ) → (P.state pool).keeps level ≡ true }
        requires none { (i : ℕ) → (P.state pool).met i ≡ None }
        ensures pool { result.looking.pool ≡ pool }
        ensures root { result.looking.root ≡ root }
        ensures seen { result.looking.seen.parts.items ≡ [] }
        ensures known { result.looking.known ≡ [] }
        ensures asked { result.asked ≡ [] }
        ensures fault { result.fault ≡ None }
    {
        Seeing {
            looking: Looking::new(alloc, pool, root),
            asked: Vec::new(alloc),
            fault: None,
        }
    }

    /// The pool, what was seen, and what was asked for, in its order.
    pub fn into_parts(self) -> (P, Seen, Vec<Asked>)
        ensures pool { result.0 ≡ self.looking.pool }
        ensures seen { result.1 ≡ self.looking.seen }
        ensures asked { reverse (map asked_keys result.2.items) ≡ self.asked }
    {
        let Seeing {
            looking,
            asked,
            fault: _,
        } = self;
        let (pool, seen) = looking.into_parts();
        (pool, seen, asked)
    }

    /// What was seen is what cells have that were met, at the keys that are known; these are keys that were asked for,
    /// and so is a key of each cell that was met (docs/volume.md, "Sight"). It does nothing.
    pub fn lawful(&self)
        ensures looking { IsLooking (P.state self.now.looking.pool) self.now.looking.root
            self.now.looking.seen.parts.items self.now.looking.known }
        ensures seeing { IsSeeing (P.state self.now.looking.pool) self.now.looking.known
            self.now.asked self.now.fault }
    {
        self.looking.lawful();
    }
}

impl<P: Pool> Sight for Seeing<P> {
    ghost use Rattle.r4_seeing.specs.Seeing.{sighting};

    ghost state = { λ s. sighting s };

    ghost over = { λ s. record { root = s.looking.root; pool = P.state s.looking.pool } };

    ghost device = { λ s. P.device s.looking.pool };

    fn parts(&self) -> &Seen {
        self.looking.seen()
    }

    fn see(&mut self, alloc: Global, key: Key) -> Result<(), FetchFault> {
        if let Some(e) = self.fault {
            return Err(e);
        }
        self.asked.push(Asked::Key(key))?;
        if !is_in_tree(key) {
            return Ok(());
        }
        let looked = self.looking.look(alloc, key, key_after(key, 1));
        noted(&mut self.fault, looked)
    }

    fn see_all(&mut self, alloc: Global, within: Interval) -> Result<(), FetchFault> {
        if let Some(e) = self.fault {
            return Err(e);
        }
        self.asked.push(Asked::Within(within))?;
        let from = greater(within.from, least());
        let to = lesser(within.to, top());
        let looked = self.looking.look(alloc, from, to);
        noted(&mut self.fault, looked)
    }
}

// Whether a key is one of a tree.
fn is_in_tree(key: Key) -> bool
    ensures { result ≡ is_between least top (rank key) }
{
    !key.is_below(least()) && key.is_below(top())
}

// A fault with which a look-up ended is kept.
fn noted(fault: &mut Option<FetchFault>, looked: Result<(), FetchFault>) -> Result<(), FetchFault>
    ensures same { result ≡ looked }
    ensures fault { IsNotedFault fault.old looked fault.new }
{
    if let Err(e) = looked {
        *fault = Some(e);
    }
    looked
}

// The lesser of two keys.
fn lesser(one: Key, other: Key) -> Key
    ensures one { rank result ≤ rank one }
    ensures other { rank result ≤ rank other }
    ensures is { (rank one ≤ rank result) ⊎ (rank other ≤ rank result) }
{
    if other.is_below(one) { other } else { one }
}

// The greater of two keys.
fn greater(one: Key, other: Key) -> Key
    ensures one { rank one ≤ rank result }
    ensures other { rank other ≤ rank result }
    ensures is { (rank result ≤ rank one) ⊎ (rank result ≤ rank other) }
{
    if one.is_below(other) { other } else { one }
}

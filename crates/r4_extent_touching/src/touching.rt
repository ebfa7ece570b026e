//! The cells that hold keys, met one after another.

ghost use Rattle.std.specs.Prelude.{◌≡◌, ◌+◌, ◌≤◌, ◌<◌, ℕ, IfErr, IfOk, OnOk, map, true};
ghost use Rattle.r4_base.specs.Key.{least, rank, top};
ghost use Rattle.r4_content.specs.Edited.{is_between, is_in};
ghost use Rattle.r4_content.specs.Held.{interval_of};
ghost use Rattle.r4_marking.specs.r4_search.Path.{root_name};
ghost use Rattle.r4_marking.specs.r4_search.Pool.{IsKnown, LeavesDevice};
ghost use Rattle.r4_touching.specs.Touching.{StopsFor, Touches};
ghost use Rattle.r4_extent_touching.specs.Holding.{AreHeld};

use r4_base::Key;
use r4_content::Interval;
use r4_marking::{FetchFault, Pool};
use r4_touching::{Root, least, stretch_from, top};
use std::alloc::Global;

/// Meets the cells that hold the keys of some intervals, in their order: the leaf of a key; and of one in the range of
/// an extent the twig, and the block there, if there is one. Each is met by one way from the root; a step is taken for
/// each leaf, and for each block that an extent has, holes among them. The pool keeps all that it answers; where what
/// was met hung together with the root, it does so afterwards. `Read` and `Damaged` name a block on the way to one of
/// the keys (docs/volume.md, "Reach").
pub fn touch_all<P: Pool>(
    alloc: Global,
    pool: &mut P,
    root: &Root,
    keys: &[Interval],
) -> Result<(), FetchFault>
    requires some { 1 ≤ root.now.height }
    requires known { IsKnown (P.state pool.old) (root_name root.now) }
    requires keeps { (level : ℕ) → (P.state pool.old).keeps level ≡ true }
    ensures device { LeavesDevice (P.device pool.old) (P.device pool.new) }
    ensures touches { Touches root.now (is_in (map interval_of keys.now)) (P.state pool.old)
        (P.state pool.new) }
    ensures held { OnOk result (AreHeld (P.state pool.new) (is_in (map interval_of keys.now))) }
    ensures err { IfErr result (λ e. StopsFor (is_in (map interval_of keys.now))
        (P.state pool.old) e (P.state pool.new)) }
{
    match keys.split_first() {
        None => Ok(()),
        Some((first, rest)) => {
            touch_keys(alloc, pool, root, first.from, first.to)?;
            touch_all(alloc, pool, root, rest)
        }
    }
}

// The same of the keys from one on up to another.
fn touch_keys<P: Pool>(
    alloc: Global,
    pool: &mut P,
    root: &Root,
    from: Key,
    to: Key,
) -> Result<(), FetchFault>
    requires some { 1 ≤ root.now.height }
    requires known { IsKnown (P.state pool.old) (root_name root.now) }
    requires keeps { (level : ℕ) → (P.state pool.old).keeps level ≡ true }
    ensures device { LeavesDevice (P.device pool.old) (P.device pool.new) }
    ensures touches { Touches root.now (is_between (rank from) (rank to)) (P.state pool.old)
        (P.state pool.new) }
    ensures held { OnOk result (AreHeld (P.state pool.new) (is_between (rank from) (rank to))) }
    ensures err { IfErr result (λ e. StopsFor (is_between (rank from) (rank to))
        (P.state pool.old) e (P.state pool.new)) }
{
    let mut at = if from.is_below(least()) {
        least()
    } else {
        from
    };
    while at.is_below(to) && at.is_below(top()) {
        at = piece_end(alloc, pool, root, at, to)?;
    }
    Ok(())
}

// Where the keys end that one cell holds from a key on, and no further than an end.
fn piece_end<P: Pool>(
    alloc: Global,
    pool: &mut P,
    root: &Root,
    key: Key,
    to: Key,
) -> Result<Key, FetchFault>
    requires some { 1 ≤ root.now.height }
    requires known { IsKnown (P.state pool.old) (root_name root.now) }
    requires keeps { (level : ℕ) → (P.state pool.old).keeps level ≡ true }
    requires from { least ≤ rank key }
    requires below { rank key < top }
    requires order { rank key < rank to }
    ensures device { LeavesDevice (P.device pool.old) (P.device pool.new) }
    ensures touches { Touches root.now (is_between (rank key) (rank key + 1)) (P.state pool.old)
        (P.state pool.new) }
    ensures onward { IfOk result (λ k. rank key < rank k) }
    ensures held { IfOk result (λ k. AreHeld (P.state pool.new)
        (is_between (rank key) (rank k))) }
    ensures err { IfErr result (λ e. StopsFor (is_between (rank key) (rank key + 1))
        (P.state pool.old) e (P.state pool.new)) }
{
    let stretch = stretch_from(alloc, pool, root, key, to)?;
    Ok(stretch.to)
}

//! The leaves that hold keys, met one after another.

ghost use Rattle.std.specs.Prelude.{◌≡◌, ◌≢◌, ◌⊎◌, ◌+◌, ◌≤◌, ◌<◌, ℕ, IfErr, IfNone, IfOk, IfSome, map, true};
ghost use Rattle.std.specs.Option.{option_map};
ghost use Rattle.r4_base.specs.Key.{least, rank, top};
ghost use Rattle.r4_content.specs.Edited.{is_between, is_in};
ghost use Rattle.r4_content.specs.Held.{interval_of};
ghost use Rattle.r4_seeing.specs.r4_search.Path.{root_name};
ghost use Rattle.r4_seeing.specs.r4_search.Pool.{IsKnown, LeavesDevice};
ghost use Rattle.r4_touching.specs.Touching.{AreHeld, EndsLeaf, StopsFor, Touches};

use r4_base::{Key, LEAF};
use r4_cell::{Cell, Root, least, top};
use r4_content::Interval;
use r4_seeing::{FetchFault, Pool, cover};
use std::alloc::Global;

/// Meets the leaves that hold the keys of some intervals, in their order, each by one way from the root; no byte is
/// looked at. Answers whether they are all in leaves: not where the way to one of them ends at an extent, and then no
/// further one is looked for. The pool keeps all that it answers; where what was met hung together with the root, it
/// does so afterwards. `Read` and `Damaged` name a block on the way to one of the keys (docs/volume.md, "Reach").
pub fn touch<P: Pool>(
    alloc: Global,
    pool: &mut P,
    root: &Root,
    keys: &[Interval],
) -> Result<bool, FetchFault>
    requires some { 1 ≤ root.now.height }
    requires known { IsKnown (P.state pool.old) (root_name root.now) }
    requires keeps { (level : ℕ) → (P.state pool.old).keeps level ≡ true }
    ensures device { LeavesDevice (P.device pool.old) (P.device pool.new) }
    ensures touches { Touches root.now (is_in (map interval_of keys.now)) (P.state pool.old)
        (P.state pool.new) }
    ensures held { IfOk result (AreHeld (P.state pool.new) (is_in (map interval_of keys.now))) }
    ensures err { IfErr result (λ e. StopsFor (is_in (map interval_of keys.now))
        (P.state pool.old) e (P.state pool.new)) }
{
    match keys.split_first() {
        None => Ok(true),
        Some((first, rest)) => {
            let from = higher(first.from, least());
            let to = lower(first.to, top());
            Ok(touch_keys(alloc, pool, root, from, to)? && touch(alloc, pool, root, rest)?)
        }
    }
}

// The same of the keys from one on up to another.
fn touch_keys<P: Pool>(
    alloc: Global,
    pool: &mut P,
    root: &Root,
    from: Key,
    to: Key,
) -> Result<bool, FetchFault>
    requires some { 1 ≤ root.now.height }
    requires known { IsKnown (P.state pool.old) (root_name root.now) }
    requires keeps { (level : ℕ) → (P.state pool.old).keeps level ≡ true }
    requires from { least ≤ rank from }
    requires to { rank to ≤ top }
    ensures device { LeavesDevice (P.device pool.old) (P.device pool.new) }
    ensures touches { Touches root.now (is_between (rank from) (rank to)) (P.state pool.old)
        (P.state pool.new) }
    ensures held { IfOk result (AreHeld (P.state pool.new) (is_between (rank from) (rank to))) }
    ensures err { IfErr result (λ e. StopsFor (is_between (rank from) (rank to))
        (P.state pool.old) e (P.state pool.new)) }
{
    let mut at = from;
    while at.is_below(to) {
        match leaf_end(alloc, pool, root, at)? {
            Some(end) => at = end,
            None => return Ok(false),
        }
    }
    Ok(true)
}

// Where the leaf ends that has a key; nothing where the key is in an extent.
fn leaf_end<P: Pool>(
    alloc: Global,
    pool: &mut P,
    root: &Root,
    key: Key,
) -> Result<Option<Key>, FetchFault>
    requires some { 1 ≤ root.now.height }
    requires known { IsKnown (P.state pool.old) (root_name root.now) }
    requires keeps { (level : ℕ) → (P.state pool.old).keeps level ≡ true }
    requires from { least ≤ rank key }
    requires below { rank key < top }
    ensures device { LeavesDevice (P.device pool.old) (P.device pool.new) }
    ensures touches { Touches root.now (is_between (rank key) (rank key + 1)) (P.state pool.old)
        (P.state pool.new) }
    ensures end { IfOk result (λ o. EndsLeaf (P.state pool.new) (rank key)
        (option_map (λ k. rank k) o)) }
    ensures err { IfErr result (λ e. StopsFor (is_between (rank key) (rank key + 1))
        (P.state pool.old) e (P.state pool.new)) }
{
    let mut path = cover(alloc, pool, root, &key)?;
    match path.pop() {
        Some(cell) => Ok(end_of(&cell)),
        None => unreachable!(),
    }
}

// Where the keys of a leaf end; a cell above the leaves is none.
fn end_of(cell: &Cell) -> Option<Key>
    ensures leaf { IfSome result (λ end. (cell.now.level ≡ 1) × (end ≡ cell.now.hi)) }
    ensures other { IfNone result (cell.now.level ≢ 1) }
{
    (cell.level() == LEAF).then_some(cell.hi())
}

// The higher one of two keys.
fn higher(one: Key, other: Key) -> Key
    ensures one { rank one ≤ rank result }
    ensures other { rank other ≤ rank result }
    ensures is { (rank result ≡ rank one) ⊎ (rank result ≡ rank other) }
{
    if one.is_below(other) { other } else { one }
}

// The lower one of two keys.
fn lower(one: Key, other: Key) -> Key
    ensures one { rank result ≤ rank one }
    ensures other { rank result ≤ rank other }
    ensures is { (rank result ≡ rank one) ⊎ (rank result ≡ rank other) }
{
    if other.is_below(one) { other } else { one }
}

//! Keys of bodies, and keys of none (docs/layout.md, "Keys").

ghost use Rattle.std.specs.Prelude.{◌≡◌, ◌+◌, ◌*◌, ◌^◌, ◌<◌, ◌↔◌, [], ◌∷◌, true, false, map};
ghost use Rattle.r4_base.specs.Key.{IsKey, rank};
ghost use Rattle.r4_content.specs.Held.{interval_of, pair_of};
ghost use Rattle.r4_content.specs.Edited.{put_keys};
ghost use Rattle.r4_leaf_demands.specs.Touching.{HasKind, MeetsKind};
ghost use Rattle.r4_marking.specs.r4_reach.Reach.{is_body};

use r4_base::{Key, Value};
use r4_content::Interval;
use r4_leaf::KeyRange;
use r4_suited::{has, part_of};

/// The minor type of a body's keys.
const BODY: u64 = 4;

/// How many minor types there may be.
const MINORS: u64 = 16;

/// Whether one of the intervals has a key in a range that is a body's, or is none's. A step is taken for each interval
/// (docs/volume.md, "Reach").
pub fn intervals_have(range: &KeyRange, body: bool, intervals: &[Interval]) -> bool
    ensures { (result ≡ true) ↔ MeetsKind body (map interval_of intervals.now)
        (rank range.now.from) (rank range.now.to) }
{
    match intervals.split_first() {
        None => false,
        Some((first, rest)) => {
            interval_has(range, body, first) || intervals_have(range, body, rest)
        }
    }
}

/// Whether one of the values has a key in a range that is a body's, or is none's.
pub(crate) fn values_have(range: &KeyRange, body: bool, values: &[(Key, Value)]) -> bool
    ensures { (result ≡ true) ↔ MeetsKind body (put_keys (map pair_of values.now))
        (rank range.now.from) (rank range.now.to) }
{
    match values.split_first() {
        None => false,
        Some((first, rest)) => { value_has(range, body, first.0) || values_have(range, body, rest) }
    }
}

// Whether a key lies in a range and is a body's, or is none's.
fn value_has(range: &KeyRange, body: bool, key: Key) -> bool
    ensures { (result ≡ true) ↔ MeetsKind body ((rank key, rank key + 1) ∷ [])
        (rank range.now.from) (rank range.now.to) }
{
    has(range, key) && is_of(key) == body
}

// Whether an interval has a key in a range that is a body's, or is none's.
fn interval_has(range: &KeyRange, body: bool, interval: &Interval) -> bool
    ensures { (result ≡ true) ↔ MeetsKind body (interval_of interval.now ∷ [])
        (rank range.now.from) (rank range.now.to) }
{
    match part_of(range, interval.from, interval.to) {
        Some(part) => has_kind(&part, body),
        None => false,
    }
}

// Whether one of the keys of a range, which has some, is a body's, or is none's.
fn has_kind(range: &KeyRange, body: bool) -> bool
    requires { rank range.now.from < rank range.now.to }
    ensures { (result ≡ true) ↔ HasKind body (rank range.now.from) (rank range.now.to) }
{
    if body {
        has_body(range.from, range.to)
    } else {
        has_other(range.from, range.to)
    }
}

// Whether one of the keys from one on and below another is a body's.
fn has_body(from: Key, to: Key) -> bool
    requires { rank from < rank to }
    ensures { (result ≡ true) ↔ HasKind true (rank from) (rank to) }
{
    if is_of(from) {
        return true;
    }
    let first = from.el[0];
    match first.checked_add((MINORS + BODY - first % MINORS) % MINORS) {
        Some(next) => first_of(next).is_below(to),
        None => false,
    }
}

// Whether one of the keys from one on and below another is no body's.
fn has_other(from: Key, to: Key) -> bool
    requires { rank from < rank to }
    ensures { (result ≡ true) ↔ HasKind false (rank from) (rank to) }
{
    if !is_of(from) {
        return true;
    }
    first_of(from.el[0] + 1).is_below(to)
}

// The first key of a first number.
#[tactic(auto, unfolding(r4_base::specs::Key::rank))]
fn first_of(first: u64) -> Key
    ensures { rank result ≡ first * 2 ^ 192 }
{
    Key {
        el: [first, 0, 0, 0],
    }
}

// Whether a key is a body's.
fn is_of(key: Key) -> bool
    ensures same { result ≡ is_body (rank key) }
    ensures key { IsKey key }
{
    key.el[0] % MINORS == BODY
}

//! Whether the bytes that edits set lie in ranges (docs/volume.md, "Bodies in extents").

ghost use Rattle.std.specs.Prelude.{◌≡◌, ◌++◌, ◌^◌, All, map};
ghost use Rattle.std.specs.List.{flat_map, list_all};
ghost use Rattle.r4_base.specs.Key.{rank};
ghost use Rattle.r4_content.specs.Edited.{is_between, is_in};
ghost use Rattle.r4_content.specs.Held.{edits_of, fill_pairs, interval_of, pair_of, run_pairs};
ghost use Rattle.r4_content.specs.Objects.{byte_pairs};
ghost use Rattle.r4_lost_tasks.specs.r4_extent_growth.r4_leaf_edits.Suiting.{IsBefore, SuitLeaves};
ghost use Rattle.r4_grown_tasks.specs.Places.{goes_on, lies, put_lies};

use r4_base::{Key, Value};
use r4_content::{ByteRun, Edits, FilledInterval, Interval};

// Whether these intervals lie in the ranges. No step is taken for a byte.
pub(crate) fn zeros_lie(places: &[Interval], zeros: &[Interval]) -> bool
    ensures { result ≡ list_all (lies (map interval_of places.now)) (map interval_of zeros.now) }
{
    for zero in zeros {
        if !lies(places, zero.from, zero.to) {
            return false;
        }
    }
    true
}

// Whether each byte that edits put lies in the ranges. No step is taken for a byte.
pub(crate) fn puts_lie(places: &[Interval], edits: &Edits) -> bool
    requires { SuitLeaves (2 ^ 30) (edits_of edits.now) }
    ensures { result ≡ list_all (put_lies (map interval_of places.now)) (edits_of edits.now).puts }
{
    fills_lie(places, edits.fills.as_slice()) && puts_lie_one_by_one(places, edits)
}

// Whether each byte of runs and values lies in the ranges.
fn puts_lie_one_by_one(places: &[Interval], edits: &Edits) -> bool
    requires { SuitLeaves (2 ^ 30) (edits_of edits.now) }
    ensures { result ≡ list_all (put_lies (map interval_of places.now))
        (flat_map run_pairs edits.now.runs.items ++ map pair_of edits.now.puts.items) }
{
    runs_lie(places, edits.runs.as_slice()) && values_lie(places, edits.puts.as_slice())
}

// Whether the bytes of fills lie in the ranges.
fn fills_lie(places: &[Interval], fills: &[FilledInterval]) -> bool
    ensures { result ≡ list_all (put_lies (map interval_of places.now))
        (flat_map fill_pairs fills.now) }
{
    match fills.split_first() {
        None => true,
        Some((first, rest)) => fill_lies(places, first) && fills_lie(places, rest),
    }
}

// Whether the bytes of a fill lie in the ranges.
fn fill_lies(places: &[Interval], fill: &FilledInterval) -> bool
    ensures { result ≡ list_all (put_lies (map interval_of places.now)) (fill_pairs fill.now) }
{
    lies(places, fill.from, fill.to)
}

// Whether the bytes of runs lie in the ranges.
fn runs_lie(places: &[Interval], runs: &[ByteRun]) -> bool
    requires { All (IsBefore (2 ^ 30)) (flat_map run_pairs runs.now) }
    ensures { result ≡ list_all (put_lies (map interval_of places.now))
        (flat_map run_pairs runs.now) }
{
    match runs.split_first() {
        None => true,
        Some((first, rest)) => {
            run_lies(places, first.from, first.bytes.as_slice()) && runs_lie(places, rest)
        }
    }
}

// Whether bytes at one key after another lie in the ranges.
fn run_lies(places: &[Interval], from: Key, bytes: &[u8]) -> bool
    requires { All (IsBefore (2 ^ 30)) (byte_pairs (rank from) bytes.now) }
    ensures { result ≡ list_all (put_lies (map interval_of places.now))
        (byte_pairs (rank from) bytes.now) }
{
    if bytes.is_empty() {
        return true;
    }
    lies(places, from, from.behind(bytes.len() as u64))
}

// Whether each value is no byte, or lies in the ranges.
fn values_lie(places: &[Interval], values: &[(Key, Value)]) -> bool
    ensures { result ≡ list_all (put_lies (map interval_of places.now)) (map pair_of values.now) }
{
    for value in values {
        if !value_lies(places, value) {
            return false;
        }
    }
    true
}

// Whether a value is no byte, or lies in the ranges.
fn value_lies(places: &[Interval], value: &(Key, Value)) -> bool
    ensures { result ≡ put_lies (map interval_of places.now) (pair_of value.now) }
{
    match value.1 {
        Value::Byte(_) => has_key(places, &value.0),
        _ => true,
    }
}

// Whether one of the ranges has a key.
fn has_key(places: &[Interval], key: &Key) -> bool
    ensures { result ≡ is_in (map interval_of places.now) (rank key.now) }
{
    for place in places {
        if is_between(place, key) {
            return true;
        }
    }
    false
}

// Whether a range has a key.
fn is_between(place: &Interval, key: &Key) -> bool
    ensures { result ≡ is_between (interval_of place.now).0 (interval_of place.now).1 (rank key.now) }
{
    !key.is_below(place.from) && key.is_below(place.to)
}

// Whether each key from one on and below another one lies in the ranges: from where some of them
// end it goes on to where others do.
fn lies(places: &[Interval], from: Key, to: Key) -> bool
    ensures { result ≡ lies (map interval_of places.now) (rank from, rank to) }
{
    let mut at = from;
    while at.is_below(to) {
        let next = goes_on(places, at);
        if !at.is_below(next) {
            return false;
        }
        at = next;
    }
    true
}

// How far the ranges go on from a key, each that has the key at which those before it end.
fn goes_on(places: &[Interval], from: Key) -> Key
    ensures { rank result ≡ goes_on (map interval_of places.now) (rank from) }
{
    let mut at = from;
    for place in places {
        if is_between(place, &at) {
            at = place.to;
        }
    }
    at
}

//! The first key of a body that edits set or take away (docs/volume.md, "Reach").

ghost use Rattle.std.specs.Prelude.{◌≡◌, ◌^◌, All, map};
ghost use Rattle.std.specs.List.{flat_map};
ghost use Rattle.std.specs.Option.{option_map};
ghost use Rattle.r4_base.specs.Key.{rank};
ghost use Rattle.r4_content.specs.Edited.{changed, put_keys};
ghost use Rattle.r4_content.specs.Held.{edits_of, fill_pairs, interval_of, pair_of, run_pairs};
ghost use Rattle.r4_leaf_demands.specs.r4_leaf_edits.Suiting.{IsBefore, SuitLeaves};
ghost use Rattle.r4_leaf_demands.specs.r4_reach.Touched.{body_key};

use crate::keys::is_of_body;
use r4_base::{Key, Value};
use r4_content::{ByteRun, Edits, FilledInterval, Interval};

/// The first key of a body that is set or taken away.
pub(crate) fn first_key(edits: &Edits) -> Option<Key>
    requires { SuitLeaves (2 ^ 64) (edits_of edits.now) }
    ensures { option_map rank result ≡ body_key (changed (edits_of edits.now)) }
{
    if let Some(key) = first_put(edits) {
        return Some(key);
    }
    if let Some(key) = first_of_intervals(edits.zeros.as_slice()) {
        return Some(key);
    }
    first_of_intervals(edits.cuts.as_slice())
}

// The first key of a body that gets a value of its own.
fn first_put(edits: &Edits) -> Option<Key>
    requires { SuitLeaves (2 ^ 64) (edits_of edits.now) }
    ensures { option_map rank result ≡ body_key (put_keys (edits_of edits.now).puts) }
{
    if let Some(key) = first_of_fills(edits.fills.as_slice()) {
        return Some(key);
    }
    if let Some(key) = first_of_runs(edits.runs.as_slice()) {
        return Some(key);
    }
    first_of_values(edits.puts.as_slice())
}

// The first key of fills. It is a body's, as all of their keys are.
fn first_of_fills(fills: &[FilledInterval]) -> Option<Key>
    requires { All (IsBefore (2 ^ 64)) (flat_map fill_pairs fills.now) }
    ensures { option_map rank result ≡ body_key (put_keys (flat_map fill_pairs fills.now)) }
{
    match fills.split_first() {
        None => None,
        Some((first, rest)) => {
            if first.from.is_below(first.to) {
                Some(first.from)
            } else {
                first_of_fills(rest)
            }
        }
    }
}

// The same of runs.
fn first_of_runs(runs: &[ByteRun]) -> Option<Key>
    requires { All (IsBefore (2 ^ 64)) (flat_map run_pairs runs.now) }
    ensures { option_map rank result ≡ body_key (put_keys (flat_map run_pairs runs.now)) }
{
    match runs.split_first() {
        None => None,
        Some((first, rest)) => {
            if first.bytes.as_slice().is_empty() {
                first_of_runs(rest)
            } else {
                Some(first.from)
            }
        }
    }
}

// The first key of values that is a body's.
fn first_of_values(values: &[(Key, Value)]) -> Option<Key>
    ensures { option_map rank result ≡ body_key (put_keys (map pair_of values.now)) }
{
    for (key, _) in values {
        if is_of_body(*key) {
            return Some(*key);
        }
    }
    None
}

// The first key of a body with which an interval begins that has keys.
fn first_of_intervals(intervals: &[Interval]) -> Option<Key>
    ensures { option_map rank result ≡ body_key (map interval_of intervals.now) }
{
    for interval in intervals {
        if interval.from.is_below(interval.to) && is_of_body(interval.from) {
            return Some(interval.from);
        }
    }
    None
}

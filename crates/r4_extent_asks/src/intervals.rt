//! The keys that edits change, as intervals (docs/volume.md, "Reach").

ghost use Rattle.std.specs.Prelude.{◌≡◌, ◌∷◌, [], ℕ, ◌+◌, ◌^◌, ◌<◌, ◌≤◌, All, IfOk, OnOk, Option, map};
ghost use Rattle.std.specs.List.{flat_map};
ghost use Rattle.r4_base.specs.Key.{rank, top};
ghost use Rattle.r4_content.specs.Edited.{changed, is_in, put_keys};
ghost use Rattle.r4_content.specs.Held.{edits_of, fill_pairs, interval_of, pair_of, run_pairs};
ghost use Rattle.r4_content.specs.Objects.{byte_pairs};
ghost use Rattle.r4_twig_asks.specs.r4_leaf_edits.Suiting.{IsBefore, SuitLeaves};
ghost use Rattle.r4_twig_asks.specs.r4_reach.Touched.{Body};
ghost use Rattle.r4_extent_asks.specs.Widening.{AddsChanges, widened};

use crate::blocks::next_key;
use r4_base::{Key, Memory, Value};
use r4_content::{ByteRun, Edits, FilledInterval, Interval};
use r4_units::top;
use std::alloc::Global;

/// The keys that edits change: an interval for each fill and each run that has keys, and for each value and interval.
/// What counts as changed by them, in whole blocks too, is what does by the edits. Bytes are set at keys of bodies.
pub(crate) fn intervals_of(alloc: Global, edits: &Edits) -> Result<Vec<Interval>, Memory>
    requires { SuitLeaves (2 ^ 30) (edits_of edits.now) }
    ensures { IfOk result (λ v. (b : Option Body) (k : ℕ) → k < top
        → is_in (map (widened b) (map interval_of v.items)) k
        ≡ is_in (map (widened b) (changed (edits_of edits.now))) k) }
{
    let mut keys = Vec::new(alloc);
    add_fills(&mut keys, edits.fills.as_slice())?;
    add_runs(&mut keys, edits.runs.as_slice())?;
    add_values(&mut keys, edits.puts.as_slice())?;
    add_intervals(&mut keys, edits.zeros.as_slice())?;
    add_intervals(&mut keys, edits.cuts.as_slice())?;
    Ok(keys)
}

// The keys of fills come behind the others.
fn add_fills(keys: &mut Vec<Interval>, fills: &[FilledInterval]) -> Result<(), Memory>
    requires { All (IsBefore (2 ^ 30)) (flat_map fill_pairs fills.now) }
    ensures { OnOk result (AddsChanges keys.old.items (put_keys (flat_map fill_pairs fills.now))
        keys.new.items) }
{
    match fills.split_first() {
        None => Ok(()),
        Some((first, rest)) => {
            add_filled(keys, first)?;
            add_fills(keys, rest)
        }
    }
}

// The keys of a fill come behind the others, if it has some.
fn add_filled(keys: &mut Vec<Interval>, fill: &FilledInterval) -> Result<(), Memory>
    requires { All (IsBefore (2 ^ 30)) (fill_pairs fill.now) }
    ensures { OnOk result (AddsChanges keys.old.items (put_keys (fill_pairs fill.now))
        keys.new.items) }
{
    if fill.from.is_below(fill.to) {
        keys.push(Interval {
            from: fill.from,
            to: fill.to,
        })?;
    }
    Ok(())
}

// The keys of runs come behind the others.
fn add_runs(keys: &mut Vec<Interval>, runs: &[ByteRun]) -> Result<(), Memory>
    requires { All (IsBefore (2 ^ 30)) (flat_map run_pairs runs.now) }
    ensures { OnOk result (AddsChanges keys.old.items (put_keys (flat_map run_pairs runs.now))
        keys.new.items) }
{
    match runs.split_first() {
        None => Ok(()),
        Some((first, rest)) => {
            add_bytes(keys, first.from, first.bytes.as_slice())?;
            add_runs(keys, rest)
        }
    }
}

// The keys of bytes at one key after another come behind the others, if there are some.
fn add_bytes(keys: &mut Vec<Interval>, from: Key, bytes: &[u8]) -> Result<(), Memory>
    requires { All (IsBefore (2 ^ 30)) (byte_pairs (rank from) bytes.now) }
    ensures { OnOk result (AddsChanges keys.old.items (put_keys (byte_pairs (rank from) bytes.now))
        keys.new.items) }
{
    if !bytes.is_empty() {
        keys.push(Interval {
            from,
            to: from.behind(bytes.len() as u64),
        })?;
    }
    Ok(())
}

// The keys of values come behind the others.
fn add_values(keys: &mut Vec<Interval>, values: &[(Key, Value)]) -> Result<(), Memory>
    ensures { OnOk result (AddsChanges keys.old.items (put_keys (map pair_of values.now))
        keys.new.items) }
{
    match values.split_first() {
        None => Ok(()),
        Some(((key, _), rest)) => {
            keys.push(one_key(*key))?;
            add_values(keys, rest)
        }
    }
}

// Intervals come behind the others.
fn add_intervals(keys: &mut Vec<Interval>, more: &[Interval]) -> Result<(), Memory>
    ensures { OnOk result (AddsChanges keys.old.items (map interval_of more.now) keys.new.items) }
{
    match more.split_first() {
        None => Ok(()),
        Some((first, rest)) => {
            keys.push(*first)?;
            add_intervals(keys, rest)
        }
    }
}

// One key, and nothing where it is that behind all of them.
fn one_key(key: Key) -> Interval
    ensures { (b : Option Body) (k : ℕ) → k < top
        → is_in (widened b (interval_of result) ∷ []) k
        ≡ is_in (widened b (rank key, rank key + 1) ∷ []) k }
{
    if key.is_below(top()) {
        Interval {
            from: key,
            to: next_key(key),
        }
    } else {
        Interval { from: key, to: key }
    }
}

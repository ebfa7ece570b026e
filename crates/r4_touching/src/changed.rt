//! The keys that a command asks for and changes, as intervals.

ghost use Rattle.std.specs.Prelude.{◌≡◌, ◌∷◌, [], ℕ, ◌+◌, ◌<◌, ◌≤◌, All, OnOk, IfOk, map};
ghost use Rattle.std.specs.List.{flat_map};
ghost use Rattle.r4_base.specs.Key.{least, rank, top};
ghost use Rattle.r4_content.specs.Edited.{changed, is_in, put_keys};
ghost use Rattle.r4_content.specs.Held.{edits_of, fill_pairs, interval_of, pair_of, run_pairs};
ghost use Rattle.r4_content.specs.Objects.{byte_pairs};
ghost use Rattle.r4_seeing.specs.r4_gather.Finding.{asked_keys};
ghost use Rattle.r4_leaf_edits.specs.Suiting.{IsBefore, SuitLeaves};
ghost use Rattle.r4_touching.specs.Changed.{AddsKeys};

use r4_base::{Key, Memory, Value};
use r4_cell::{least, top};
use r4_content::{ByteRun, Edits, FilledInterval, Interval};
use r4_seeing::{Asked, key_after};
use std::alloc::Global;

/// The keys of a tree that a command changes: one interval for each of its intervals, fills, runs and values. The edits
/// are such as leaves can take. The only error is want of memory (docs/volume.md, "Reach").
pub fn changed_keys(alloc: Global, edits: &Edits) -> Result<Vec<Interval>, Memory>
    requires { SuitLeaves 16384 (edits_of edits.now) }
    ensures { IfOk result (λ v. (k : ℕ) → least ≤ k → k < top
        → is_in (map interval_of v.items) k ≡ is_in (changed (edits_of edits.now)) k) }
{
    let mut keys = Vec::new(alloc);
    add_fills(&mut keys, edits.fills.as_slice())?;
    add_runs(&mut keys, edits.runs.as_slice())?;
    add_values(&mut keys, edits.puts.as_slice())?;
    add_intervals(&mut keys, edits.zeros.as_slice())?;
    add_intervals(&mut keys, edits.cuts.as_slice())?;
    Ok(keys)
}

/// The keys of a tree that were asked for: one interval for each question. The only error is want of memory
/// (docs/volume.md, "Reach").
pub fn keys_asked(alloc: Global, asked: &[Asked]) -> Result<Vec<Interval>, Memory>
    ensures { IfOk result (λ v. (k : ℕ) → least ≤ k → k < top
        → is_in (map interval_of v.items) k ≡ is_in (map asked_keys asked.now) k) }
{
    let mut keys = Vec::new(alloc);
    add_asked(&mut keys, asked)?;
    Ok(keys)
}

// The keys of questions come behind the others.
fn add_asked(keys: &mut Vec<Interval>, asked: &[Asked]) -> Result<(), Memory>
    ensures { OnOk result (AddsKeys keys.old.items (map asked_keys asked.now) keys.new.items) }
{
    match asked.split_first() {
        None => Ok(()),
        Some((first, rest)) => {
            keys.push(keys_of_question(*first))?;
            add_asked(keys, rest)
        }
    }
}

// The keys of a tree that one question asks for.
fn keys_of_question(asked: Asked) -> Interval
    ensures { (k : ℕ) → least ≤ k → k < top
        → is_in (interval_of result ∷ []) k ≡ is_in (asked_keys asked ∷ []) k }
{
    match asked {
        Asked::Key(key) => one_key(key),
        Asked::Within(interval) => interval,
    }
}

// The keys of intervals come behind the others.
fn add_intervals(keys: &mut Vec<Interval>, more: &[Interval]) -> Result<(), Memory>
    ensures { OnOk result (AddsKeys keys.old.items (map interval_of more.now) keys.new.items) }
{
    match more.split_first() {
        None => Ok(()),
        Some((first, rest)) => {
            keys.push(*first)?;
            add_intervals(keys, rest)
        }
    }
}

// The keys of fills come behind the others.
fn add_fills(keys: &mut Vec<Interval>, fills: &[FilledInterval]) -> Result<(), Memory>
    ensures { OnOk result (AddsKeys keys.old.items (put_keys (flat_map fill_pairs fills.now))
        keys.new.items) }
{
    match fills.split_first() {
        None => Ok(()),
        Some((first, rest)) => {
            keys.push(Interval {
                from: first.from,
                to: first.to,
            })?;
            add_fills(keys, rest)
        }
    }
}

// The keys of runs come behind the others.
fn add_runs(keys: &mut Vec<Interval>, runs: &[ByteRun]) -> Result<(), Memory>
    requires { All (IsBefore 16384) (flat_map run_pairs runs.now) }
    ensures { OnOk result (AddsKeys keys.old.items (put_keys (flat_map run_pairs runs.now))
        keys.new.items) }
{
    match runs.split_first() {
        None => Ok(()),
        Some((first, rest)) => {
            keys.push(keys_of_bytes(first.from, first.bytes.as_slice()))?;
            add_runs(keys, rest)
        }
    }
}

// The keys of bytes at one key after another.
fn keys_of_bytes(from: Key, bytes: &[u8]) -> Interval
    requires { All (IsBefore 16384) (byte_pairs (rank from) bytes.now) }
    ensures { (k : ℕ) → is_in (interval_of result ∷ []) k
        ≡ is_in (put_keys (byte_pairs (rank from) bytes.now)) k }
{
    if bytes.is_empty() {
        return Interval { from, to: from };
    }
    Interval {
        from,
        to: from.behind(bytes.len() as u64),
    }
}

// The keys of values come behind the others.
fn add_values(keys: &mut Vec<Interval>, values: &[(Key, Value)]) -> Result<(), Memory>
    ensures { OnOk result (AddsKeys keys.old.items (put_keys (map pair_of values.now))
        keys.new.items) }
{
    match values.split_first() {
        None => Ok(()),
        Some(((key, _), rest)) => {
            keys.push(one_key(*key))?;
            add_values(keys, rest)
        }
    }
}

// One key of a tree, and nothing where it is none.
fn one_key(key: Key) -> Interval
    ensures { (k : ℕ) → least ≤ k → k < top
        → is_in (interval_of result ∷ []) k ≡ is_in ((rank key, rank key + 1) ∷ []) k }
{
    if key.is_below(top()) {
        Interval {
            from: key,
            to: key_after(key, 1),
        }
    } else {
        Interval { from: key, to: key }
    }
}

//! Whether a command changes a leaf (docs/volume.md, "Which edits a leaf gets").

ghost use Rattle.std.specs.Prelude.{◌≡◌, ◌+◌, ◌++◌, map, nat_lt, slice_index, ◌==◌, ◌&&◌};
ghost use Rattle.std.specs.List.{flat_map, list_any};
ghost use Rattle.r4_base.specs.Key.{IsKey, rank};
ghost use Rattle.r4_content.specs.Edited.{changed, is_between, put_keys};
ghost use Rattle.r4_content.specs.Held.{edits_of, interval_of, pair_of, run_pairs};
ghost use Rattle.r4_reach.specs.Needs.{is_met, meets};

use crate::keys::{has, higher, next_key, part_of};
use r4_base::{Key, Value};
use r4_content::{ByteRun, Edits, FilledInterval, Interval};
use r4_reach::KeyRange;

/// Whether a key that a command sets or takes away lies in the range of a leaf, from `lo` on and below `hi`. It takes
/// no time for each byte (docs/volume.md, "Which edits a leaf gets").
pub fn touches_leaf(edits: &Edits, lo: &Key, hi: &Key) -> bool
    ensures { result ≡ is_met (changed (edits_of edits.now)) (rank lo.now) (rank hi.now) }
{
    let range = KeyRange { from: *lo, to: *hi };
    sets_in(&range, edits) || takes_in(&range, edits)
}

// Whether a key in a range gets a value.
fn sets_in(range: &KeyRange, edits: &Edits) -> bool
    ensures { result ≡ is_met (put_keys (edits_of edits.now).puts)
        (rank range.now.from) (rank range.now.to) }
{
    meets_fills(range, edits.fills.as_slice()) || sets_one_by_one(range, edits)
}

// Whether a key in a range gets a byte of a run or a value.
fn sets_one_by_one(range: &KeyRange, edits: &Edits) -> bool
    ensures { result
        ≡ is_met (put_keys
        (flat_map run_pairs edits.now.runs.items ++ map pair_of edits.now.puts.items))
        (rank range.now.from) (rank range.now.to) }
{
    meets_runs(range, edits.runs.as_slice()) || meets_values(range, edits.puts.as_slice())
}

// Whether a key in a range gets the byte 0, or is taken away.
fn takes_in(range: &KeyRange, edits: &Edits) -> bool
    ensures { result ≡ is_met ((edits_of edits.now).zeros ++ (edits_of edits.now).cuts)
        (rank range.now.from) (rank range.now.to) }
{
    meets_intervals(range, edits.zeros.as_slice()) || meets_intervals(range, edits.cuts.as_slice())
}

// Whether an interval has a key in a range.
fn meets(range: &KeyRange, from: Key, to: Key) -> bool
    ensures { result ≡ meets (rank range.now.from) (rank range.now.to) (rank from, rank to) }
{
    part_of(range, from, to).is_some()
}

/// Whether one of the intervals has a key in a range (docs/volume.md, "Which edits a leaf gets").
pub fn meets_intervals(range: &KeyRange, intervals: &[Interval]) -> bool
    ensures { result ≡ list_any
        (λ i. meets (rank range.now.from) (rank range.now.to) (interval_of i)) intervals.now }
{
    intervals.iter().any(|i| meets(range, i.from, i.to))
}

/// Whether one of the fills has a key in a range (docs/volume.md, "Which edits a leaf gets").
pub fn meets_fills(range: &KeyRange, fills: &[FilledInterval]) -> bool
    ensures { result ≡ list_any
        (λ f. meets (rank range.now.from) (rank range.now.to) (rank f.from, rank f.to))
        fills.now }
{
    fills.iter().any(|f| meets(range, f.from, f.to))
}

/// Whether one of the runs has a key in a range. It takes no time for each byte (docs/volume.md, "Which edits a leaf
/// gets").
pub fn meets_runs(range: &KeyRange, runs: &[ByteRun]) -> bool
    ensures { result ≡ is_met (put_keys (flat_map run_pairs runs.now))
        (rank range.now.from) (rank range.now.to) }
{
    match runs.split_first() {
        None => false,
        Some((first, rest)) => meets_run(range, first) || meets_runs(range, rest),
    }
}

// Whether a run has a key in a range.
fn meets_run(range: &KeyRange, run: &ByteRun) -> bool
    ensures { result
        ≡ is_met (put_keys (run_pairs run.now)) (rank range.now.from) (rank range.now.to) }
{
    let count = run.bytes.as_slice().len() as u64;
    let low = higher(range.from, run.from);
    low.is_below(range.to) && reaches(run.from, count, low)
}

// Whether so many keys from one on go past another.
#[tactic(auto, unfolding(r4_base::specs::Key::rank))]
fn reaches(from: Key, count: u64, other: Key) -> bool
    ensures { result ≡ nat_lt (rank other) (rank from + count) }
{
    if other.is_below(from) {
        return true;
    }
    if is_same_body(from, other) {
        return other.el[3] - from.el[3] < count;
    }
    let left = u64::MAX - from.el[3];
    if count <= left {
        return false;
    }
    let border = next_key(from.with_offset(u64::MAX), other);
    is_same_body(border, other) && other.el[3] < count - left - 1
}

// Whether two keys differ in their offsets at most.
fn is_same_body(a: Key, b: Key) -> bool
    ensures same { result ≡ (slice_index a.el 0 == slice_index b.el 0
        && (slice_index a.el 1 == slice_index b.el 1 && slice_index a.el 2 == slice_index b.el 2)) }
    ensures keys { IsKey a × IsKey b }
{
    a.el[0] == b.el[0] && (a.el[1] == b.el[1] && a.el[2] == b.el[2])
}

// Whether one of the values has its key in a range.
fn meets_values(range: &KeyRange, values: &[(Key, Value)]) -> bool
    ensures { result ≡ list_any
        (λ p. is_between (rank range.now.from) (rank range.now.to) (rank p.0)) values.now }
{
    values.iter().any(|put| has(range, put.0))
}

//! Edits of a content of which the bytes of files are left out.

ghost use Rattle.std.specs.Prelude.{◌≡◌, ◌≢◌, ◌≤◌, ◌<◌, ◌+◌, ◌∷◌, [], All, IfNone, IfSome, IsFalse, IsTrue, OnOk};
ghost use Rattle.std.specs.Prelude.{◌^◌, Some, drop, length, map, nat_lt, slice_get, take};
ghost use Rattle.std.specs.FinMap.{put};
ghost use Rattle.std.specs.List.{flat_map};
ghost use Rattle.std.specs.Ordering.{nat_cmp};
ghost use Rattle.r4_base.specs.Key.{rank};
ghost use Rattle.r4_base.specs.Value.{value_of};
ghost use Rattle.r4_content.specs.Edited.{is_between};
ghost use Rattle.r4_content.specs.Held.{edits_of, fill_pairs, interval_of, pair_of, run_pairs};
ghost use Rattle.r4_content.specs.Listed.{list_cut};
ghost use Rattle.r4_content.specs.declared.seen.SeenPart.{SeenPart};
ghost use Rattle.r4_summary.specs.Kept.{AreKept, kept_edited, kept_put, kept_puts, key_in, pairs_in};

use r4_base::{Key, Memory, Value};
use r4_content::{ByteRun, Edits, FilledInterval, Interval, SeenPart};

// The least key of a part.
fn key_of(part: &SeenPart) -> Key
    ensures { rank result ≡ key_in part.now }
{
    match part {
        SeenPart::One { key, value: _ } => *key,
        SeenPart::Run(run) => run.from,
    }
}

// Whether its key lies in an interval.
fn is_inside(part: &SeenPart, from: Key, to: Key) -> bool
    ensures { result ≡ is_between (rank from) (rank to) (key_in part.now) }
{
    let key = key_of(part);
    !key.is_below(from) && key.is_below(to)
}

// The keys of an interval go.
fn cut(parts: &mut Vec<SeenPart>, from: Key, to: Key)
    requires { AreKept parts.old.items }
    ensures kept { AreKept parts.new.items }
    ensures pairs { pairs_in parts.new.items
        ≡ list_cut ((rank from, rank to) ∷ []) (pairs_in parts.old.items) }
{
    parts.retain(|part| !is_inside(part, from, to));
}

// The keys of intervals go.
fn cut_all(parts: &mut Vec<SeenPart>, intervals: &[Interval])
    requires { AreKept parts.old.items }
    ensures kept { AreKept parts.new.items }
    ensures pairs { pairs_in parts.new.items
        ≡ list_cut (map interval_of intervals.now) (pairs_in parts.old.items) }
{
    for interval in intervals {
        cut(parts, interval.from, interval.to);
    }
}

// Nothing that is kept stands where bytes are filled in.
fn fill_all(parts: &mut Vec<SeenPart>, fills: &[FilledInterval])
    requires { AreKept parts.old.items }
    ensures kept { AreKept parts.new.items }
    ensures pairs { pairs_in parts.new.items
        ≡ kept_puts (flat_map fill_pairs fills.now) (pairs_in parts.old.items) }
{
    for fill in fills {
        cut(parts, fill.from, fill.to);
    }
}

// At how many parts the keys are below a key. The parts rise.
fn place(parts: &[SeenPart], key: Key) -> usize
    requires { AreKept parts.now }
    ensures bound { result ≤ length parts.now }
    ensures before { All (λ p. key_in p < rank key) (take result parts.now) }
    ensures behind { All (λ p. rank key ≤ key_in p) (drop result parts.now) }
{
    parts.partition_point(|part| key_of(part).is_below(key))
}

// The parts with a key are the next one or none; it is the one at its place.
fn stands_at(parts: &[SeenPart], at: usize, key: Key) -> bool
    ensures stands { IsTrue result → (p : SeenPart) × (slice_get parts.now at ≡ Some p)
        × (key_in p ≡ rank key) }
    ensures other { IsFalse result → (p : SeenPart) → slice_get parts.now at ≡ Some p
        → key_in p ≢ rank key }
{
    match parts.get(at) {
        Some(part) => key_of(part).is_same(key),
        None => false,
    }
}

// A value that is no byte is set.
fn set(parts: &mut Vec<SeenPart>, key: Key, value: Value) -> Result<(), Memory>
    requires { AreKept parts.old.items }
    ensures { OnOk result (AreKept parts.new.items × (pairs_in parts.new.items
        ≡ put nat_cmp (rank key) (value_of value) (pairs_in parts.old.items))) }
{
    let at = place(parts.as_slice(), key);
    let part = SeenPart::One { key, value };
    if stands_at(parts.as_slice(), at, key) {
        parts[at] = part;
        return Ok(());
    }
    parts.insert(at, part)?;
    Ok(())
}

// Whether the part has a key.
fn has_key(part: &SeenPart, key: Key) -> bool
    ensures { result ≡ is_between (rank key) (rank key + 1) (key_in part.now) }
{
    key_of(part).is_same(key)
}

// What stands at a key goes.
fn forget(parts: &mut Vec<SeenPart>, key: Key)
    requires { AreKept parts.old.items }
    ensures kept { AreKept parts.new.items }
    ensures pairs { pairs_in parts.new.items
        ≡ list_cut ((rank key, rank key + 1) ∷ []) (pairs_in parts.old.items) }
{
    parts.retain(|part| !has_key(part, key));
}

// The key so many keys behind another, where there is one.
#[tactic(auto, unfolding(r4_base::specs::Key::rank))]
fn key_behind(from: Key, count: u64) -> Option<Key>
    ensures some { IfSome result (λ k. rank k ≡ rank from + count) }
    ensures none { IfNone result (2 ^ 256 ≤ rank from + count) }
{
    let [locality, ordering, oid, offset] = from.el;
    let (offset, carries) = offset.overflowing_add(count);
    if !carries {
        return Some(Key {
            el: [locality, ordering, oid, offset],
        });
    }
    if oid < u64::MAX {
        return Some(Key {
            el: [locality, ordering, oid + 1, offset],
        });
    }
    if ordering < u64::MAX {
        return Some(Key {
            el: [locality, ordering + 1, 0, offset],
        });
    }
    if locality < u64::MAX {
        return Some(Key {
            el: [locality + 1, 0, 0, offset],
        });
    }
    None
}

// Whether a key is below the one so many keys behind another.
#[tactic(auto, unfolding(r4_base::specs::Key::rank))]
fn is_before(key: Key, from: Key, count: u64) -> bool
    ensures { result ≡ nat_lt (rank key) (rank from + count) }
{
    match key_behind(from, count) {
        Some(end) => key.is_below(end),
        None => true,
    }
}

// Whether the key of a part is one of so many from one on.
fn is_among(part: &SeenPart, from: Key, count: u64) -> bool
    ensures { result ≡ is_between (rank from) (rank from + count) (key_in part.now) }
{
    let key = key_of(part);
    !key.is_below(from) && is_before(key, from, count)
}

// So many keys from one on go.
fn wipe(parts: &mut Vec<SeenPart>, from: Key, count: u64)
    requires { AreKept parts.old.items }
    ensures kept { AreKept parts.new.items }
    ensures pairs { pairs_in parts.new.items
        ≡ list_cut ((rank from, rank from + count) ∷ []) (pairs_in parts.old.items) }
{
    parts.retain(|part| !is_among(part, from, count));
}

// Nothing that is kept stands where runs of bytes are.
fn wipe_all(parts: &mut Vec<SeenPart>, runs: &[ByteRun])
    requires { AreKept parts.old.items }
    ensures kept { AreKept parts.new.items }
    ensures pairs { pairs_in parts.new.items
        ≡ kept_puts (flat_map run_pairs runs.now) (pairs_in parts.old.items) }
{
    if let Some((run, rest)) = runs.split_first() {
        wipe(parts, run.from, run.bytes.as_slice().len() as u64);
        wipe_all(parts, rest);
    }
}

// A value is set.
fn put(parts: &mut Vec<SeenPart>, key: Key, value: Value) -> Result<(), Memory>
    requires { AreKept parts.old.items }
    ensures { OnOk result (AreKept parts.new.items × (pairs_in parts.new.items
        ≡ kept_put (rank key, value_of value) (pairs_in parts.old.items))) }
{
    match value {
        Value::Byte(_) => {
            forget(parts, key);
            Ok(())
        }
        value => set(parts, key, value),
    }
}

// Values are set, one after another.
fn put_all(parts: &mut Vec<SeenPart>, puts: Vec<(Key, Value)>) -> Result<(), Memory>
    requires { AreKept parts.old.items }
    ensures { OnOk result (AreKept parts.new.items × (pairs_in parts.new.items
        ≡ kept_puts (map pair_of puts.items) (pairs_in parts.old.items))) }
{
    for (key, value) in puts {
        put(parts, key, value)?;
    }
    Ok(())
}

/// What is kept of a content, as edits leave it. Where there is not enough memory, nothing is said of it.
pub(crate) fn edit(parts: &mut Vec<SeenPart>, edits: Edits) -> Result<(), Memory>
    requires { AreKept parts.old.items }
    ensures { OnOk result (AreKept parts.new.items × (pairs_in parts.new.items
        ≡ kept_edited (edits_of edits) (pairs_in parts.old.items))) }
{
    cut_all(parts, edits.cuts.as_slice());
    cut_all(parts, edits.zeros.as_slice());
    fill_all(parts, edits.fills.as_slice());
    wipe_all(parts, edits.runs.as_slice());
    put_all(parts, edits.puts)?;
    Ok(())
}

//! The size of a file before and after edits, in bytes (docs/volume.md, "Reach").

ghost use Rattle.std.specs.Prelude.{◌≡◌, ◌^◌, Some, false, map};
ghost use Rattle.std.specs.FinMap.{find};
ghost use Rattle.std.specs.List.{list_any};
ghost use Rattle.std.specs.Ordering.{nat_cmp};
ghost use Rattle.r4_base.specs.Key.{rank};
ghost use Rattle.r4_base.specs.Value.{value_of};
ghost use Rattle.r4_content.specs.Edited.{Pairs, is_between};
ghost use Rattle.r4_content.specs.Held.{edits_of, pair_of, pairs_of};
ghost use Rattle.r4_content.specs.Listed.{list_edited, list_put};
ghost use Rattle.r4_content.specs.Seen.{Rises};
ghost use Rattle.r4_leaf_demands.specs.r4_leaf_edits.Suiting.{SuitLeaves};
ghost use Rattle.r4_leaf_demands.specs.r4_reach.Reach.{is_body};
ghost use Rattle.r4_leaf_demands.specs.r4_reach.Touched.{size_in};

use r4_base::{Key, Value};
use r4_content::{Edits, Interval, Seen};
use r4_dir::attr_at;

/// The size that was seen at a stat key, 0 where there is none.
pub(crate) fn size_at(seen: &Seen, stat: Key) -> u64
    requires { Rises (pairs_of seen.now) }
    ensures { result ≡ size_in (find nat_cmp (rank stat) (pairs_of seen.now)) }
{
    attr_at(seen, stat).map_or(0, |attr| attr.size)
}

/// The size after edits, where it was so much before: that of the last value that is put there, else 0 where the key is
/// taken away.
pub(crate) fn size_after(edits: &Edits, stat: Key, was: u64) -> u64
    requires suits { SuitLeaves (2 ^ 64) (edits_of edits.now) }
    requires stat { is_body (rank stat) ≡ false }
    ensures { (s : Pairs) → Rises s → size_in (find nat_cmp (rank stat) s) ≡ was
        → size_in (find nat_cmp (rank stat) (list_edited (edits_of edits.now) s)) ≡ result }
{
    let left = if has_key(edits.cuts.as_slice(), stat) {
        0
    } else {
        was
    };
    last_size(edits.puts.as_slice(), stat, left)
}

// Whether one of the intervals has a key.
fn has_key(intervals: &[Interval], key: Key) -> bool
    ensures { result
        ≡ list_any (λ i. is_between (rank i.from) (rank i.to) (rank key)) intervals.now }
{
    intervals
        .iter()
        .any(|i| !key.is_below(i.from) && key.is_below(i.to))
}

// The size at a stat key after values are put, one after another, where it was so much before.
fn last_size(values: &[(Key, Value)], stat: Key, was: u64) -> u64
    ensures { (s : Pairs) → Rises s → size_in (find nat_cmp (rank stat) s) ≡ was
        → size_in (find nat_cmp (rank stat) (list_put (map pair_of values.now) s)) ≡ result }
{
    match values.split_first() {
        None => was,
        Some(((key, value), rest)) => {
            let size = if key.is_same(stat) {
                size_of(value)
            } else {
                was
            };
            last_size(rest, stat, size)
        }
    }
}

// The size that a value tells, 0 where it is no attributes.
fn size_of(value: &Value) -> u64
    ensures { result ≡ size_in (Some (value_of value.now)) }
{
    match value {
        Value::Attr(attr) => attr.size,
        _ => 0,
    }
}

//! One edit more for a leaf (docs/volume.md, "Which edits a leaf gets").

ghost use Rattle.std.specs.Prelude.{◌≡◌, ◌-◌, ◌<◌, ◌∷◌, [], true, All, OnOk, replicate};
ghost use Rattle.r4_base.specs.Key.{offset_of, rank};
ghost use Rattle.r4_base.specs.Value.{value_of};
ghost use Rattle.r4_content.specs.Held.{interval_of};
ghost use Rattle.r4_content.specs.Objects.{byte_pairs};
ghost use Rattle.r4_leaf_edits.specs.Making.{Gains, Grows, Sets};
ghost use Rattle.r4_leaf_edits.specs.Suiting.{IsBefore, IsLawfulPut, is_byte};

use crate::keys::{distance, has, next_key, part_of};
use crate::leaf_edits::{LeafEdits, LeafItem};
use crate::values::item_of_value;
use r4_base::{Key, Memory, Value};
use r4_content::Interval;
use r4_reach::{KeyRange, tail_part};
use std::alloc::Global;

/// What lies in the leaf's range of an interval goes.
pub(crate) fn cut(
    edits: &mut LeafEdits<'_>,
    range: &KeyRange,
    interval: &Interval,
) -> Result<(), Memory>
    ensures gains { OnOk result (Gains (rank range.now.from) (rank range.now.to)
        (interval_of interval.now ∷ []) [] edits.old edits.new) }
    ensures few { OnOk result (Grows 1 edits.old edits.new) }
{
    match part_of(range, interval.from, interval.to) {
        Some(part) => edits.cut(part),
        None => Ok(()),
    }
}

/// The keys from one on and below another that lie in the leaf's range get one byte.
pub(crate) fn fill(
    edits: &mut LeafEdits<'_>,
    range: &KeyRange,
    from: Key,
    to: Key,
    byte: u8,
) -> Result<(), Memory>
    requires { All (IsBefore 16384)
        (byte_pairs (rank from) (replicate (rank to - rank from) byte)) }
    ensures gains { OnOk result (Sets (rank range.now.from) (rank range.now.to)
        (byte_pairs (rank from) (replicate (rank to - rank from) byte)) edits.old edits.new) }
    ensures few { OnOk result (Grows 1 edits.old edits.new) }
{
    match part_of(range, from, to) {
        Some(part) => {
            let count = distance(&part.from, &part.to) as u16;
            edits.replace(part, LeafItem::Filled(part.from, count, byte))
        }
        None => Ok(()),
    }
}

/// Bytes at one key after another are set, from this key on, as far as they lie in the leaf's range. They are lent.
pub(crate) fn set_run<'a>(
    edits: &mut LeafEdits<'a>,
    range: &KeyRange,
    from: Key,
    bytes: &'a [u8],
) -> Result<(), Memory>
    requires { All (IsBefore 16384) (byte_pairs (rank from) bytes.now) }
    ensures gains { OnOk result (Sets (rank range.now.from) (rank range.now.to)
        (byte_pairs (rank from) bytes.now) edits.old edits.new) }
    ensures few { OnOk result (Grows 1 edits.old edits.new) }
{
    if bytes.is_empty() {
        return Ok(());
    }
    let end = from.behind(bytes.len() as u64);
    match part_of(range, from, end) {
        Some(part) => {
            let first = distance(&from, &part.from) as usize;
            let last = distance(&from, &part.to) as usize;
            let bytes = tail_part(bytes, first, last);
            edits.replace(part, LeafItem::Lent(part.from, bytes))
        }
        None => Ok(()),
    }
}

/// A value is set, where its key lies in the leaf's range.
pub(crate) fn set_value<'a>(
    alloc: Global,
    edits: &mut LeafEdits<'a>,
    range: &KeyRange,
    key: Key,
    value: &Value,
) -> Result<(), Memory>
    requires lawful { IsLawfulPut (rank key, value_of value.now) }
    requires short { is_byte (value_of value.now) ≡ true → offset_of key < 16384 }
    ensures gains { OnOk result (Sets (rank range.now.from) (rank range.now.to)
        ((rank key, value_of value.now) ∷ []) edits.old edits.new) }
    ensures few { OnOk result (Grows 1 edits.old edits.new) }
{
    if !has(range, key) {
        return Ok(());
    }
    let item = item_of_value(alloc, key, value)?;
    let to = next_key(key, range.to);
    edits.replace(KeyRange { from: key, to }, item)
}

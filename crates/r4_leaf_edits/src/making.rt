//! The edits that a leaf gets (docs/volume.md, "Which edits a leaf gets").

ghost use Rattle.std.specs.Prelude.{◌≡◌, ℕ, ◌+◌, ◌^◌, ◌∷◌, [], true, length, map};
ghost use Rattle.std.specs.Prelude.{All, IfOk, List, OnOk, Option};
ghost use Rattle.std.specs.Prelude.{if◌then◌else◌, not, ◌&&◌, ◌||◌, ◌==◌};
ghost use Rattle.std.specs.List.{filter, flat_map, list_any};
ghost use Rattle.std.specs.Option.{is_none, option_map};
ghost use Rattle.r4_base.specs.Key.{IsKey, rank};
ghost use Rattle.r4_base.specs.Value.{value_of};
ghost use Rattle.r4_content.specs.Edited.{is_in, put_keys};
ghost use Rattle.r4_content.specs.Held.{edits_of, fill_pairs, interval_of, pair_of, run_pairs};
ghost use Rattle.r4_reach.specs.r4_leaf.Remade.{AreWithin};
ghost use Rattle.r4_reach.specs.r4_leaf.Units.{LeafUnit};
ghost use Rattle.r4_reach.specs.r4_leaf.declared.remaking.Given.{Given as GivenItem};
ghost use Rattle.r4_reach.specs.Needs.{leaf_edits};
ghost use Rattle.r4_reach.specs.Reach.{is_body};
ghost use Rattle.r4_reach.specs.Touched.{Body};
ghost use Rattle.r4_leaf_edits.specs.Made.{AreItems, AreOfLeaf, CutsWithin, HaveKeys, MakesEdits};
ghost use Rattle.r4_leaf_edits.specs.Made.{HasAtMost, bytes_end, cuts_in, edit_count, spread_keys};
ghost use Rattle.r4_leaf_edits.specs.Making.{Gains, Gathers, Grows, Sets, all_cuts, all_pairs};
ghost use Rattle.r4_leaf_edits.specs.Making.{body_cuts, body_pairs, bytes_of, is_kept, values_set};
ghost use Rattle.r4_leaf_edits.specs.Suiting.{IsBefore, IsLawfulPut, SuitLeaves};
ghost use Rattle.r4_leaf_edits.specs.Suiting.{is_byte, zero_pairs};

use crate::adding::{cut, fill, set_run, set_value};
use crate::leaf_edits::LeafEdits;
use r4_base::{Key, Memory, Value};
use r4_content::{ByteRun, Edits, FilledInterval, Interval};
use r4_reach::KeyRange;
use std::alloc::Global;

/// What the leaf of the keys from `lo` on and below `hi` gets of a command's edits: what it is to have afterwards is
/// what the edits make of its units, as far as that lies in its range. Where a body stands in extents afterwards,
/// `spread` has all its keys: these are cut out, and none of its bytes is put in. Bytes are lent, and a fill holds
/// none; at most one range and one item come for each interval, run and value of the edits, and a range for a body.
/// `Memory` where there was not enough (docs/volume.md, "Which edits a leaf gets").
pub fn edits_of_leaf<'a>(
    alloc: Global,
    edits: &'a Edits,
    spread: Option<Interval>,
    lo: &Key,
    hi: &Key,
) -> Result<LeafEdits<'a>, Memory>
    requires { SuitLeaves (bytes_end spread) (edits_of edits.now) }
    ensures cuts { IfOk result (λ v. CutsWithin (rank lo.now) (rank hi.now) (cuts_in v)) }
    ensures items { IfOk result (λ v. (gs : List GivenItem) → AreItems v gs
        → AreWithin (rank lo.now) (rank hi.now) gs × HaveKeys gs) }
    ensures edits { IfOk result (λ v. (b : Option Body) (us : List LeafUnit) (gs : List GivenItem)
        → option_map interval_of spread ≡ spread_keys b
        → AreOfLeaf (rank lo.now) (rank hi.now) us → AreItems v gs
        → MakesEdits (rank lo.now) (rank hi.now) (leaf_edits b (edits_of edits.now))
        (cuts_in v) gs us) }
    ensures few { IfOk result (HasAtMost (edit_count edits.now)) }
{
    let range = KeyRange { from: *lo, to: *hi };
    gather(alloc, edits, spread, &range)
}

// All that a leaf gets.
fn gather<'a>(
    alloc: Global,
    edits: &'a Edits,
    spread: Option<Interval>,
    range: &KeyRange,
) -> Result<LeafEdits<'a>, Memory>
    requires { SuitLeaves (bytes_end spread) (edits_of edits.now) }
    ensures gains { IfOk result (Gathers (rank range.now.from) (rank range.now.to)
        (all_cuts spread edits.now) (all_pairs spread edits.now)) }
    ensures few { IfOk result (HasAtMost (edit_count edits.now)) }
{
    let mut made = LeafEdits::none(alloc);
    cut_each(&mut made, range, edits.cuts.as_slice())?;
    take_body(&mut made, range, edits, spread)?;
    set_values(
        alloc,
        &mut made,
        range,
        edits.puts.as_slice(),
        spread.is_none(),
    )?;
    Ok(made)
}

// What lies in the leaf's range of each interval goes.
fn cut_each(made: &mut LeafEdits<'_>, range: &KeyRange, cuts: &[Interval]) -> Result<(), Memory>
    ensures gains { OnOk result (Gains (rank range.now.from) (rank range.now.to)
        (map interval_of cuts.now) [] made.old made.new) }
    ensures few { OnOk result (Grows (length cuts.now) made.old made.new) }
{
    match cuts.split_first() {
        None => Ok(()),
        Some((first, rest)) => {
            cut(made, range, first)?;
            cut_each(made, range, rest)
        }
    }
}

// The bytes of the edits are set; or all keys of a body go that stands in extents afterwards.
fn take_body<'a>(
    made: &mut LeafEdits<'a>,
    range: &KeyRange,
    edits: &'a Edits,
    spread: Option<Interval>,
) -> Result<(), Memory>
    requires { SuitLeaves (bytes_end spread) (edits_of edits.now) }
    ensures gains { OnOk result (Gains (rank range.now.from) (rank range.now.to)
        (body_cuts spread edits.now) (body_pairs spread edits.now) made.old made.new) }
    ensures few { OnOk result (Grows (1 + (length edits.now.zeros.items
        + (length edits.now.fills.items + length edits.now.runs.items))) made.old made.new) }
{
    match spread {
        Some(body) => cut(made, range, &body),
        None => set_bytes(made, range, edits),
    }
}

// The bytes of zeros, fills and runs are set.
fn set_bytes<'a>(made: &mut LeafEdits<'a>, range: &KeyRange, edits: &'a Edits) -> Result<(), Memory>
    requires { All (IsBefore 16384) (bytes_of edits.now) }
    ensures gains { OnOk result (Sets (rank range.now.from) (rank range.now.to) (bytes_of edits.now)
        made.old made.new) }
    ensures few { OnOk result (Grows (length edits.now.zeros.items
        + (length edits.now.fills.items + length edits.now.runs.items)) made.old made.new) }
{
    zero_each(made, range, edits.zeros.as_slice())?;
    fill_each(made, range, edits.fills.as_slice())?;
    set_runs(made, range, edits.runs.as_slice())
}

// The keys of each interval get the byte 0.
fn zero_each(made: &mut LeafEdits<'_>, range: &KeyRange, zeros: &[Interval]) -> Result<(), Memory>
    requires { All (IsBefore 16384) (flat_map zero_pairs (map interval_of zeros.now)) }
    ensures gains { OnOk result (Sets (rank range.now.from) (rank range.now.to)
        (flat_map zero_pairs (map interval_of zeros.now)) made.old made.new) }
    ensures few { OnOk result (Grows (length zeros.now) made.old made.new) }
{
    match zeros.split_first() {
        None => Ok(()),
        Some((first, rest)) => {
            fill(made, range, first.from, first.to, 0)?;
            zero_each(made, range, rest)
        }
    }
}

// The keys of each interval get its byte.
fn fill_each(
    made: &mut LeafEdits<'_>,
    range: &KeyRange,
    fills: &[FilledInterval],
) -> Result<(), Memory>
    requires { All (IsBefore 16384) (flat_map fill_pairs fills.now) }
    ensures gains { OnOk result (Sets (rank range.now.from) (rank range.now.to)
        (flat_map fill_pairs fills.now) made.old made.new) }
    ensures few { OnOk result (Grows (length fills.now) made.old made.new) }
{
    match fills.split_first() {
        None => Ok(()),
        Some((first, rest)) => {
            fill(made, range, first.from, first.to, first.byte)?;
            fill_each(made, range, rest)
        }
    }
}

// The bytes of each run are set.
fn set_runs<'a>(
    made: &mut LeafEdits<'a>,
    range: &KeyRange,
    runs: &'a [ByteRun],
) -> Result<(), Memory>
    requires { All (IsBefore 16384) (flat_map run_pairs runs.now) }
    ensures gains { OnOk result (Sets (rank range.now.from) (rank range.now.to)
        (flat_map run_pairs runs.now) made.old made.new) }
    ensures few { OnOk result (Grows (length runs.now) made.old made.new) }
{
    match runs.split_first() {
        None => Ok(()),
        Some((first, rest)) => {
            set_run(made, range, first.from, first.bytes.as_slice())?;
            set_runs(made, range, rest)
        }
    }
}

// The last value of each key is set, but bytes of bodies only where they are wanted.
fn set_values(
    alloc: Global,
    made: &mut LeafEdits<'_>,
    range: &KeyRange,
    values: &[(Key, Value)],
    bytes: bool,
) -> Result<(), Memory>
    requires lawful { All IsLawfulPut (map pair_of values.now) }
    requires before { All (IsBefore (if bytes then 16384 else 2 ^ 64))
        (filter (λ p. is_byte p.1) (map pair_of values.now)) }
    ensures gains { OnOk result (Sets (rank range.now.from) (rank range.now.to)
        (values_set bytes (map pair_of values.now)) made.old made.new) }
    ensures few { OnOk result (Grows (length values.now) made.old made.new) }
{
    match values.split_first() {
        None => Ok(()),
        Some((first, rest)) => {
            set_last(alloc, made, range, first.0, &first.1, rest, bytes)?;
            set_values(alloc, made, range, rest, bytes)
        }
    }
}

// A value is set, unless a later one has its key, or it is a body's and these are left out.
fn set_last(
    alloc: Global,
    made: &mut LeafEdits<'_>,
    range: &KeyRange,
    key: Key,
    value: &Value,
    rest: &[(Key, Value)],
    bytes: bool,
) -> Result<(), Memory>
    requires lawful { IsLawfulPut (rank key, value_of value.now) }
    requires before { All (IsBefore (if bytes then 16384 else 2 ^ 64))
        (filter (λ p. is_byte p.1) ((rank key, value_of value.now) ∷ [])) }
    ensures gains { OnOk result (Sets (rank range.now.from) (rank range.now.to)
        (if is_kept bytes (rank key, value_of value.now)
        && not (is_in (put_keys (map pair_of rest.now)) (rank key))
        then (rank key, value_of value.now) ∷ [] else []) made.old made.new) }
    ensures few { OnOk result (Grows 1 made.old made.new) }
{
    if is_set(key, rest, bytes) {
        set_value(alloc, made, range, key, value)
    } else {
        Ok(())
    }
}

// Whether the value of a key is set: no later one has the key, and it is no body's where these are left out.
fn is_set(key: Key, rest: &[(Key, Value)], bytes: bool) -> bool
    ensures test { result ≡ ((bytes || not (is_body (rank key)))
        && not (is_in (put_keys (map pair_of rest.now)) (rank key))) }
    ensures fits { IsKey key }
{
    !is_left_out(key, bytes) && !is_put(rest, key)
}

// Whether a key is a body's where these are left out.
fn is_left_out(key: Key, bytes: bool) -> bool
    ensures test { result ≡ (not bytes && is_body (rank key)) }
    ensures fits { IsKey key }
{
    !bytes && key.el[0] % 16 == 4
}

// Whether one of the values has the key.
fn is_put(values: &[(Key, Value)], key: Key) -> bool
    ensures { result ≡ list_any (λ p. rank p.0 == rank key) values.now }
{
    values.iter().any(|put| put.0.is_same(key))
}

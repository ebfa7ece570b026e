//! Bytes are set in a block (docs/volume.md, "Data blocks").

ghost use Rattle.std.specs.Prelude.{◌≡◌, ◌-◌, ◌∷◌, [], length, map, replicate};
ghost use Rattle.std.specs.List.{flat_map};
ghost use Rattle.r4_base.specs.Key.{rank};
ghost use Rattle.r4_base.specs.Value.{value_of};
ghost use Rattle.r4_content.specs.Held.{edits_of, fill_pairs, interval_of, pair_of, run_pairs};
ghost use Rattle.r4_content.specs.Objects.{byte_pairs};
ghost use Rattle.r4_extent_blocks.specs.Setting.{AreSet, byte_set, last_put, zero_in};

use crate::places::keys_between;
use r4_base::{Key, Value};
use r4_content::{ByteRun, Edits, FilledInterval, Interval};

/// How many bytes a block has.
pub(crate) const BLOCK: usize = 4096;

/// Sets what edits set in the bytes of a block whose first key is given.
pub(crate) fn set_all(bytes: &mut [u8], lo: &Key, edits: &Edits)
    requires { length bytes.old ≡ 4096 }
    ensures { AreSet (byte_set (edits_of edits.now)) (rank lo.now) bytes.old bytes.new }
{
    zero_each(bytes, lo, edits.zeros.as_slice());
    fill_each(bytes, lo, edits.fills.as_slice());
    set_runs(bytes, lo, edits.runs.as_slice());
    set_values(bytes, lo, edits.puts.as_slice());
}

// The keys of these intervals get the byte 0.
fn zero_each(bytes: &mut [u8], lo: &Key, zeros: &[Interval])
    requires { length bytes.old ≡ 4096 }
    ensures { AreSet (zero_in (map interval_of zeros.now)) (rank lo.now) bytes.old bytes.new }
{
    if let Some((first, rest)) = zeros.split_first() {
        fill(bytes, lo, &first.from, &first.to, 0);
        zero_each(bytes, lo, rest);
    }
}

// The bytes of these fills.
fn fill_each(bytes: &mut [u8], lo: &Key, fills: &[FilledInterval])
    requires { length bytes.old ≡ 4096 }
    ensures { AreSet (last_put (flat_map fill_pairs fills.now)) (rank lo.now) bytes.old bytes.new }
{
    if let Some((first, rest)) = fills.split_first() {
        fill(bytes, lo, &first.from, &first.to, first.byte);
        fill_each(bytes, lo, rest);
    }
}

// The keys from one on and below another get one byte.
fn fill(bytes: &mut [u8], lo: &Key, from: &Key, to: &Key, byte: u8)
    requires { length bytes.old ≡ 4096 }
    ensures { AreSet (last_put (byte_pairs (rank from.now)
        (replicate (rank to.now - rank from.now) byte))) (rank lo.now) bytes.old bytes.new }
{
    let first = keys_between(lo, from, BLOCK);
    let last = keys_between(lo, to, BLOCK);
    if first < last {
        bytes[first..last].fill(byte);
    }
}

// The bytes of these runs.
fn set_runs(bytes: &mut [u8], lo: &Key, runs: &[ByteRun])
    requires { length bytes.old ≡ 4096 }
    ensures { AreSet (last_put (flat_map run_pairs runs.now)) (rank lo.now) bytes.old bytes.new }
{
    if let Some((first, rest)) = runs.split_first() {
        set_run(bytes, lo, &first.from, first.bytes.as_slice());
        set_runs(bytes, lo, rest);
    }
}

// Bytes at one key after another, from a key on.
fn set_run(bytes: &mut [u8], lo: &Key, from: &Key, run: &[u8])
    requires { length bytes.old ≡ 4096 }
    ensures { AreSet (last_put (byte_pairs (rank from.now) run.now)) (rank lo.now)
        bytes.old bytes.new }
{
    let at = keys_between(lo, from, BLOCK);
    let first = keys_between(from, lo, run.len());
    let count = (run.len() - first).min(BLOCK - at);
    bytes[at..at + count].copy_from_slice(&run[first..first + count]);
}

// The bytes among these values.
fn set_values(bytes: &mut [u8], lo: &Key, values: &[(Key, Value)])
    requires { length bytes.old ≡ 4096 }
    ensures { AreSet (last_put (map pair_of values.now)) (rank lo.now) bytes.old bytes.new }
{
    if let Some((first, rest)) = values.split_first() {
        set_value(bytes, lo, &first.0, &first.1);
        set_values(bytes, lo, rest);
    }
}

// A value, if it is a byte.
fn set_value(bytes: &mut [u8], lo: &Key, key: &Key, value: &Value)
    requires { length bytes.old ≡ 4096 }
    ensures { AreSet (last_put ((rank key.now, value_of value.now) ∷ [])) (rank lo.now)
        bytes.old bytes.new }
{
    if let Value::Byte(byte) = value {
        set_run(bytes, lo, key, &[*byte]);
    }
}

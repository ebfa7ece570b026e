//! Whether a data block gets bytes, and whether one edit sets all of them (docs/volume.md, "Data blocks").

ghost use Rattle.std.specs.Prelude.{◌≡◌, ◌-◌, ◌++◌, ◌∷◌, [], map, replicate, true};
ghost use Rattle.std.specs.List.{flat_map};
ghost use Rattle.r4_base.specs.Key.{rank};
ghost use Rattle.r4_base.specs.Value.{value_of};
ghost use Rattle.r4_content.specs.Held.{edits_of, fill_pairs, interval_of, pair_of, run_pairs};
ghost use Rattle.r4_content.specs.Objects.{byte_pairs};
ghost use Rattle.r4_extent_blocks.specs.Setting.{SetsAll, TellsSets, byte_set, last_put, zero_in};

use crate::places::keys_between;
use crate::setting::BLOCK;
use r4_base::{Key, Value};
use r4_content::{ByteRun, Edits, FilledInterval, Interval};

/// Whether edits set a byte at one of the 4096 keys from one on. It takes no step for a byte (docs/volume.md, "Data
/// blocks").
pub fn sets_bytes(edits: &Edits, lo: &Key) -> bool
    ensures { TellsSets result (byte_set (edits_of edits.now)) (rank lo.now) }
{
    sets_zeros(edits.zeros.as_slice(), lo) || puts_bytes(edits, lo)
}

// Whether one of the intervals has a key of the block.
fn sets_zeros(zeros: &[Interval], lo: &Key) -> bool
    ensures { TellsSets result (zero_in (map interval_of zeros.now)) (rank lo.now) }
{
    match zeros.split_first() {
        None => false,
        Some((first, rest)) => fills(lo, &first.from, &first.to, 0) || sets_zeros(rest, lo),
    }
}

// Whether a byte is put at a key of the block.
fn puts_bytes(edits: &Edits, lo: &Key) -> bool
    ensures { TellsSets result (last_put (edits_of edits.now).puts) (rank lo.now) }
{
    puts_fills(edits.fills.as_slice(), lo) || puts_one_by_one(edits, lo)
}

// Whether a byte of a run or a value is put at a key of the block.
fn puts_one_by_one(edits: &Edits, lo: &Key) -> bool
    ensures { TellsSets result
        (last_put (flat_map run_pairs edits.now.runs.items ++ map pair_of edits.now.puts.items))
        (rank lo.now) }
{
    puts_runs(edits.runs.as_slice(), lo) || puts_values(edits.puts.as_slice(), lo)
}

// Whether one of the fills has a key of the block.
fn puts_fills(those: &[FilledInterval], lo: &Key) -> bool
    ensures { TellsSets result (last_put (flat_map fill_pairs those.now)) (rank lo.now) }
{
    match those.split_first() {
        None => false,
        Some((first, rest)) => {
            fills(lo, &first.from, &first.to, first.byte) || puts_fills(rest, lo)
        }
    }
}

// Whether one of the runs has a key of the block.
fn puts_runs(runs: &[ByteRun], lo: &Key) -> bool
    ensures { TellsSets result (last_put (flat_map run_pairs runs.now)) (rank lo.now) }
{
    match runs.split_first() {
        None => false,
        Some((first, rest)) => {
            runs_into(lo, &first.from, first.bytes.as_slice()) || puts_runs(rest, lo)
        }
    }
}

// Whether one of the values is a byte at a key of the block.
fn puts_values(values: &[(Key, Value)], lo: &Key) -> bool
    ensures { TellsSets result (last_put (map pair_of values.now)) (rank lo.now) }
{
    match values.split_first() {
        None => false,
        Some((first, rest)) => is_put(lo, &first.0, &first.1) || puts_values(rest, lo),
    }
}

// Whether a value is a byte at a key of the block.
fn is_put(lo: &Key, key: &Key, value: &Value) -> bool
    ensures { TellsSets result (last_put ((rank key.now, value_of value.now) ∷ [])) (rank lo.now) }
{
    match value {
        Value::Byte(byte) => runs_into(lo, key, &[*byte]),
        _ => false,
    }
}

// Whether one of the block's keys lies from one key on and below another.
fn fills(lo: &Key, from: &Key, to: &Key, byte: u8) -> bool
    ensures { TellsSets result (last_put (byte_pairs (rank from.now)
        (replicate (rank to.now - rank from.now) byte))) (rank lo.now) }
{
    let _ = byte;
    keys_between(lo, from, BLOCK) < keys_between(lo, to, BLOCK)
}

// Whether one of the block's keys gets a byte of a run.
fn runs_into(lo: &Key, from: &Key, run: &[u8]) -> bool
    ensures { TellsSets result (last_put (byte_pairs (rank from.now) run.now)) (rank lo.now) }
{
    let count = run.len();
    keys_between(lo, from, BLOCK) < BLOCK && keys_between(from, lo, count) < count
}

/// Whether one fill or run sets all bytes of a block whose first key is given.
pub(crate) fn covers(edits: &Edits, lo: &Key) -> bool
    ensures { result ≡ true → SetsAll (byte_set (edits_of edits.now)) (rank lo.now) }
{
    fills_over(edits.fills.as_slice(), lo) || runs_over(edits.runs.as_slice(), lo)
}

// Whether one of the fills sets all bytes of a block.
fn fills_over(fills: &[FilledInterval], lo: &Key) -> bool
    ensures { result ≡ true → SetsAll (last_put (flat_map fill_pairs fills.now)) (rank lo.now) }
{
    match fills.split_first() {
        None => false,
        Some((first, rest)) => fill_covers(first, lo) || fills_over(rest, lo),
    }
}

// Whether a fill sets all bytes of a block.
fn fill_covers(fill: &FilledInterval, lo: &Key) -> bool
    ensures { result ≡ true → SetsAll (last_put (fill_pairs fill.now)) (rank lo.now) }
{
    !lo.is_below(fill.from) && keys_between(lo, &fill.to, BLOCK) == BLOCK
}

// Whether one of the runs sets all bytes of a block.
fn runs_over(runs: &[ByteRun], lo: &Key) -> bool
    ensures { result ≡ true → SetsAll (last_put (flat_map run_pairs runs.now)) (rank lo.now) }
{
    match runs.split_first() {
        None => false,
        Some((first, rest)) => run_covers(first, lo) || runs_over(rest, lo),
    }
}

// Whether a run sets all bytes of a block.
fn run_covers(run: &ByteRun, lo: &Key) -> bool
    ensures { result ≡ true → SetsAll (last_put (run_pairs run.now)) (rank lo.now) }
{
    let count = run.bytes.as_slice().len();
    !lo.is_below(run.from) && count - keys_between(&run.from, lo, count) >= BLOCK
}

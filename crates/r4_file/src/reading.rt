//! Reading the bytes of a file (docs/commands.md, "What each command does").

ghost use Rattle.std.specs.Prelude.{◌≡◌, ◌+◌, ◌*◌, ◌-◌, ◌^◌, ◌++◌, ◌∷◌, [], IfOk, OnOk, min};
ghost use Rattle.r4_base.specs.Key.{rank};
ghost use Rattle.r4_base.specs.Value.{value_of};
ghost use Rattle.r4_content.specs.Bodies.{bytes_in, read, read_in, smaller};
ghost use Rattle.r4_content.specs.Course.{ending};
ghost use Rattle.r4_content.specs.Edited.{no_edits};
ghost use Rattle.r4_content.specs.Held.{ending_of, pairs_of, part_pairs, run_pairs};
ghost use Rattle.r4_content.specs.Meaning.{named};
ghost use Rattle.r4_content.specs.Seen.{Rises, of_seen, pairs_in};
ghost use Rattle.r4_content.specs.declared.reply.Reply.TheVariants.{Data};
ghost use Rattle.r4_dir.specs.Coming.{IsSmall, object_of};

use crate::bodies::body;
use r4_base::{Bytes, Key, Memory, Name, Value};
use r4_content::{ByteRun, Edits, Interval, Reply, Seen, SeenPart};
use r4_dir::{Object, answer, is_dir, is_legal, walk_to};
use std::alloc::Global;

// The two halves of a key's rank.
#[tactic(auto, unfolding(r4_base::specs::Key::rank))]
fn halves(key: Key) -> (u128, u128)
    ensures { rank key ≡ result.0 * 2 ^ 128 + result.1 }
{
    let [first, second, third, fourth] = key.el;
    let high = u128::from(first) * (1 << 64) + u128::from(second);
    let low = u128::from(third) * (1 << 64) + u128::from(fourth);
    (high, low)
}

// How many keys there are from one on and below another one, at most `most`.
fn keys_between(from: Key, to: Key, most: usize) -> usize
    ensures { result ≡ min (rank to - rank from) most }
{
    let (high, low) = halves(from);
    let (to_high, to_low) = halves(to);
    if to_high < high {
        return 0;
    }
    let highs = to_high - high;
    if highs > 1 || highs == 1 && to_low >= low {
        return most;
    }
    let keys = if highs == 1 {
        u128::MAX - low + to_low + 1
    } else {
        to_low.saturating_sub(low)
    };
    if keys < most as u128 {
        keys as usize
    } else {
        most
    }
}

// Puts the bytes of a run that stand in an interval behind others.
#[tactic(auto, using(crate::proofs::Runs::run_bytes, crate::proofs::Runs::no_bytes))]
fn push_run(bytes: &mut Vec<u8>, run: &ByteRun, within: Interval) -> Result<(), Memory>
    ensures { OnOk result (bytes.new.items ≡ bytes.old.items
        ++ bytes_in (pairs_in (run_pairs run.now) (rank within.from) (rank within.to))) }
{
    let seen = run.bytes.as_slice();
    let from = keys_between(run.from, within.from, seen.len());
    let to = keys_between(run.from, within.to, seen.len());
    if from >= to {
        return Ok(());
    }
    bytes.extend_from_slice(&seen[from..to])
}

// Puts the byte that stands at a key behind others, where the key lies in an interval.
fn push_one(bytes: &mut Vec<u8>, key: Key, value: &Value, within: Interval) -> Result<(), Memory>
    ensures { OnOk result (bytes.new.items ≡ bytes.old.items
        ++ bytes_in (pairs_in ((rank key, value_of value.now)
        ∷ []) (rank within.from) (rank within.to))) }
{
    match value {
        Value::Byte(byte) => {
            if key.is_below(within.from) || !key.is_below(within.to) {
                return Ok(());
            }
            bytes.push(*byte)?;
            Ok(())
        }
        _ => Ok(()),
    }
}

// Puts the bytes of a part that stand in an interval behind others.
fn push_part(bytes: &mut Vec<u8>, part: &SeenPart, within: Interval) -> Result<(), Memory>
    ensures { OnOk result (bytes.new.items ≡ bytes.old.items
        ++ bytes_in (pairs_in (part_pairs part.now) (rank within.from) (rank within.to))) }
{
    match part {
        SeenPart::One { key, value } => push_one(bytes, *key, value, within),
        SeenPart::Run(run) => push_run(bytes, run, within),
    }
}

// The bytes that were seen in an interval.
fn bytes_within(alloc: Global, seen: &Seen, within: Interval) -> Result<Vec<u8>, Memory>
    ensures { IfOk result (λ v. v.items
        ≡ bytes_in (pairs_in (pairs_of seen.now) (rank within.from) (rank within.to))) }
{
    let mut bytes = Vec::new(alloc);
    for part in seen.parts.as_slice() {
        push_part(&mut bytes, part, within)?;
    }
    Ok(bytes)
}

/// Where the bytes of a file end of which at most `len` are asked for from an offset on.
pub fn end_of(file: &Object, offset: u64, len: u64) -> u64
    ensures { result ≡ smaller (offset + len) file.now.attr.size }
{
    let size = file.attr.size;
    if offset < size && len < size - offset {
        return offset + len;
    }
    size
}

// The bytes of a file from an offset on, at most `len`, as far as it has them.
fn bytes_of(
    alloc: Global,
    seen: &Seen,
    file: &Object,
    offset: u64,
    len: u64,
) -> Result<Bytes, Memory>
    requires { IsSmall file.now }
    ensures { IfOk result
        (λ b. ending (read_in (object_of file.now) offset len) (of_seen (pairs_of seen.now))
        ≡ record { edits = no_edits; reply = Data b }) }
{
    let end = end_of(file, offset, len);
    if offset >= end {
        return Bytes::from_vec(alloc, Vec::new(alloc));
    }
    let bytes = bytes_within(alloc, seen, body(file, offset, end))?;
    Bytes::from_vec(alloc, bytes)
}

/// What `read` answers: the bytes from `offset` on, at most `len`, as far as the file has them. Nothing changes.
pub fn plan_read(
    alloc: Global,
    path: &[Name],
    offset: u64,
    len: u64,
    seen: &Seen,
) -> Result<Edits, Memory>
    requires { Rises (pairs_of seen.now) }
    ensures { IfOk result (λ e. ending_of e
        ≡ ending (named path.now (read path.now offset len)) (of_seen (pairs_of seen.now))) }
{
    if !is_legal(path) {
        return Ok(answer(alloc, Reply::Name));
    }
    match walk_to(alloc, seen, path)? {
        Ok(place) => {
            if is_dir(&place.here) {
                return Ok(answer(alloc, Reply::Isdir));
            }
            let bytes = bytes_of(alloc, seen, &place.here, offset, len)?;
            Ok(answer(alloc, Reply::Data { bytes }))
        }
        Err(reply) => Ok(answer(alloc, reply)),
    }
}

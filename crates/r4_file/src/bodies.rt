//! Commands on the bytes of a file (docs/commands.md, "What each command does").

ghost use Rattle.std.specs.Prelude.{◌≡◌, ◌+◌, ◌<◌, ◌≤◌, ◌^◌, IfOk, MatchResult, length, map};
ghost use Rattle.std.specs.Prelude.{nat_lt, replicate};
ghost use Rattle.r4_base.specs.Volume.{byte_rank};
ghost use Rattle.r4_content.specs.Bodies.{fill_gap, larger, resize, truncate, truncated, write};
ghost use Rattle.r4_content.specs.Bodies.{written};
ghost use Rattle.r4_content.specs.Course.{ending};
ghost use Rattle.r4_content.specs.Held.{HoldsAtMost, ending_of, fill_pairs, interval_of, pair_of};
ghost use Rattle.r4_content.specs.Held.{pairs_of};
ghost use Rattle.r4_content.specs.Meaning.{greatest_size, named};
ghost use Rattle.r4_content.specs.Objects.{set_body, sized};
ghost use Rattle.r4_content.specs.Seen.{Rises, of_seen};
ghost use Rattle.r4_content.specs.declared.reply.Reply.TheVariants.{Okay};
ghost use Rattle.r4_dir.specs.Coming.{AreNames, IsSmall, object_of};
ghost use Rattle.r4_file.specs.Coming.{ComesToFile, StopsAtFile};

use r4_base::{Attr, Bytes, GREATEST_SIZE, Key, Memory, Name, Value};
use r4_content::{ByteRun, Edits, FilledInterval, Interval, Reply, Seen};
use r4_dir::{Object, answer, is_dir, is_legal, stat_key, walk_to};
use std::alloc::Global;

/// The file at a path; or the reply where there is no way to one.
#[tactic(auto, unfolding(r4_content::specs::Ways::to_file))]
fn file_at(alloc: Global, seen: &Seen, path: &[Name]) -> Result<Result<Object, Reply>, Memory>
    requires rises { Rises (pairs_of seen.now) }
    requires legal { AreNames path.now }
    ensures small { IfOk result (λ r. IfOk r IsSmall) }
    ensures comes { IfOk result (λ r. MatchResult r
        (λ o. ComesToFile path.now (pairs_of seen.now) (object_of o))
        (λ e. StopsAtFile path.now (pairs_of seen.now) e)) }
{
    match walk_to(alloc, seen, path)? {
        Ok(place) => {
            if is_dir(&place.here) {
                return Ok(Err(Reply::Isdir));
            }
            Ok(Ok(place.here))
        }
        Err(reply) => Ok(Err(reply)),
    }
}

/// The keys of a file's bytes from an offset up to another one.
pub fn body(file: &Object, from: u64, to: u64) -> Interval
    requires { IsSmall file.now }
    ensures { interval_of result ≡ (byte_rank file.now.target from, byte_rank file.now.target to) }
{
    let target = file.target;
    Interval {
        from: Key::body(target.locality, target.ordering, target.oid, from),
        to: Key::body(target.locality, target.ordering, target.oid, to),
    }
}

// The attributes of a file that gets another size.
fn sized(attr: Attr, size: u64) -> Attr
    ensures { result ≡ sized attr size }
{
    Attr {
        size,
        bytes: size,
        ..attr
    }
}

// A file gets another size: its bytes from there on go, or zeros are added.
fn truncated(alloc: Global, file: &Object, size: u64) -> Result<Edits, Memory>
    requires { IsSmall file.now }
    ensures { IfOk result (λ e. ending_of e
        ≡ record { edits = truncated (object_of file.now) size; reply = Okay }) }
{
    let mut cuts = Vec::new(alloc);
    let mut zeros = Vec::new(alloc);
    let mut puts = Vec::new(alloc);
    if size < file.attr.size {
        cuts.push(body(file, size, file.attr.size))?;
    }
    if file.attr.size < size {
        zeros.push(body(file, file.attr.size, size))?;
    }
    if file.attr.size != size {
        puts.push((stat_key(file), Value::Attr(sized(file.attr, size))))?;
    }
    Ok(Edits {
        cuts,
        zeros,
        fills: Vec::new(alloc),
        runs: Vec::new(alloc),
        puts,
        reply: Reply::Okay,
    })
}

/// What `truncate` changes: the bytes from `size` on go, or zeros are added up to there.
pub fn plan_truncate(alloc: Global, path: &[Name], size: u64, seen: &Seen) -> Result<Edits, Memory>
    requires { Rises (pairs_of seen.now) }
    ensures { IfOk result (λ e. ending_of e
        ≡ ending (named path.now (truncate greatest_size path.now size)) (of_seen
        (pairs_of seen.now))) }
{
    if !is_legal(path) {
        return Ok(answer(alloc, Reply::Name));
    }
    match file_at(alloc, seen, path)? {
        Ok(file) => {
            if size > GREATEST_SIZE {
                return Ok(answer(alloc, Reply::Toobig));
            }
            truncated(alloc, &file, size)
        }
        Err(reply) => Ok(answer(alloc, reply)),
    }
}

// A gap before an offset gets zeros.
fn gap(alloc: Global, file: &Object, to: u64) -> Result<Vec<Interval>, Memory>
    requires { IsSmall file.now }
    ensures { IfOk result (λ v. map interval_of v.items
        ≡ (fill_gap (object_of file.now) to).zeros) }
{
    let mut zeros = Vec::new(alloc);
    if file.attr.size < to {
        zeros.push(body(file, file.attr.size, to))?;
    }
    Ok(zeros)
}

// A file grows where bytes end past its size.
fn grown(alloc: Global, file: &Object, end: u64) -> Result<Vec<(Key, Value)>, Memory>
    requires { IsSmall file.now }
    ensures puts { IfOk result (λ v. map pair_of v.items
        ≡ (resize (object_of file.now) (larger file.now.attr.size end)).puts) }
    ensures flat { IfOk result (λ v. length v.items ≤ 1) }
{
    let mut puts = Vec::new(alloc);
    if file.attr.size < end {
        puts.push((stat_key(file), Value::Attr(sized(file.attr, end))))?;
    }
    Ok(puts)
}

/// Whether bytes from an offset on would end past the greatest size.
fn is_too_big(offset: u64, len: u64) -> bool
    ensures { result ≡ nat_lt greatest_size (offset + len) }
{
    offset > GREATEST_SIZE || len > GREATEST_SIZE - offset
}

// Bytes are put into a file.
fn written(alloc: Global, file: &Object, offset: u64, text: &Bytes) -> Result<Edits, Memory>
    requires small { IsSmall file.now }
    requires fits { offset + length text.now < 2 ^ 64 }
    ensures ending { IfOk result (λ e. ending_of e
        ≡ record { edits = written (object_of file.now) offset text.now; reply = Okay }) }
    ensures flat { IfOk result (HoldsAtMost 1 0 1) }
{
    let zeros = gap(alloc, file, offset)?;
    let puts = grown(alloc, file, offset + text.as_slice().len() as u64)?;
    let target = file.target;
    let mut runs = Vec::new(alloc);
    runs.push(ByteRun {
        from: Key::body(target.locality, target.ordering, target.oid, offset),
        bytes: text.share()?,
    })?;
    Ok(Edits {
        cuts: Vec::new(alloc),
        zeros,
        fills: Vec::new(alloc),
        runs,
        puts,
        reply: Reply::Okay,
    })
}

/// What `write` changes: the bytes of `text` are set from `offset` on, as one run that shares them, and a gap before them is
/// zeros.
pub fn plan_write(
    alloc: Global,
    path: &[Name],
    offset: u64,
    text: &Bytes,
    seen: &Seen,
) -> Result<Edits, Memory>
    requires { Rises (pairs_of seen.now) }
    ensures ending { IfOk result (λ e. ending_of e
        ≡ ending (named path.now (write greatest_size path.now offset text.now)) (of_seen
        (pairs_of seen.now))) }
    ensures flat { IfOk result (HoldsAtMost 1 0 1) }
{
    if !is_legal(path) {
        return Ok(answer(alloc, Reply::Name));
    }
    match file_at(alloc, seen, path)? {
        Ok(file) => {
            let len = text.as_slice().len();
            if is_too_big(offset, len as u64) {
                return Ok(answer(alloc, Reply::Toobig));
            }
            if text.as_slice().is_empty() {
                return Ok(answer(alloc, Reply::Okay));
            }
            written(alloc, &file, offset, text)
        }
        Err(reply) => Ok(answer(alloc, reply)),
    }
}

// A file's bytes from an offset on, each of which becomes `byte`.
fn filled(file: &Object, offset: u64, len: u64, byte: u8) -> FilledInterval
    requires small { IsSmall file.now }
    requires fits { offset + len < 2 ^ 64 }
    ensures { fill_pairs result ≡ (set_body (object_of file.now) offset (replicate len byte)).puts }
{
    let Interval { from, to } = body(file, offset, offset + len);
    FilledInterval { from, to, byte }
}

// One byte is put at each offset of an interval of a file.
fn fill(alloc: Global, file: &Object, offset: u64, len: u64, byte: u8) -> Result<Edits, Memory>
    requires small { IsSmall file.now }
    requires fits { offset + len < 2 ^ 64 }
    ensures ending { IfOk result (λ e. ending_of e
        ≡ record {
          edits = written (object_of file.now) offset
              (replicate len byte);
          reply = Okay;
        }) }
    ensures flat { IfOk result (HoldsAtMost 0 1 1) }
{
    let zeros = gap(alloc, file, offset)?;
    let puts = grown(alloc, file, offset + len)?;
    let mut fills = Vec::new(alloc);
    fills.push(filled(file, offset, len, byte))?;
    Ok(Edits {
        cuts: Vec::new(alloc),
        zeros,
        fills,
        runs: Vec::new(alloc),
        puts,
        reply: Reply::Okay,
    })
}

/// What `fill` changes: `len` bytes from `offset` on become `byte`, in one interval, and a gap before them is zeros.
pub fn plan_fill(
    alloc: Global,
    path: &[Name],
    offset: u64,
    len: u64,
    byte: u8,
    seen: &Seen,
) -> Result<Edits, Memory>
    requires { Rises (pairs_of seen.now) }
    ensures ending { IfOk result (λ e. ending_of e
        ≡ ending (named path.now (write greatest_size path.now offset (replicate len byte)))
        (of_seen (pairs_of seen.now))) }
    ensures flat { IfOk result (HoldsAtMost 0 1 1) }
{
    if !is_legal(path) {
        return Ok(answer(alloc, Reply::Name));
    }
    match file_at(alloc, seen, path)? {
        Ok(file) => {
            if is_too_big(offset, len) {
                return Ok(answer(alloc, Reply::Toobig));
            }
            if len == 0 {
                return Ok(answer(alloc, Reply::Okay));
            }
            fill(alloc, &file, offset, len, byte)
        }
        Err(reply) => Ok(answer(alloc, reply)),
    }
}

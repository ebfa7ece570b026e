//! A content in memory, on which commands are done.

ghost use Rattle.std.specs.List.{list_all};
ghost use Rattle.std.specs.Prelude.{◌≡◌, IsTrue};
ghost use Rattle.r4_base.specs.Key.{rank};
ghost use Rattle.r4_content.specs.Held.{pairs_of};
ghost use Rattle.r4_content.specs.Seen.{Rises};
ghost use Rattle.r4_command_tests.specs.Rising.{is_behind, is_least, is_rising};

use r4_base::{Key, Memory, Oid, Value};
use r4_content::{ByteRun, Command, Edits, FilledInterval, Interval, Reply, Seen, SeenPart};
use r4_file::plan;
use std::alloc::Global;
use std::test::Fail;

// Whether what stands at one key is behind this key.
fn is_behind(key: Key, part: &SeenPart) -> bool
    ensures { result ≡ is_behind (rank key) part.now }
{
    match part {
        SeenPart::One {
            key: other,
            value: _,
        } => key.is_below(*other),
        SeenPart::Run(_) => false,
    }
}

// Whether all these are behind a key.
fn are_behind(key: Key, parts: &[SeenPart]) -> bool
    ensures { result ≡ list_all (is_behind (rank key)) parts.now }
{
    parts.iter().all(|part| is_behind(key, part))
}

// Whether a part is one key, and all others are behind it.
fn is_least(part: &SeenPart, others: &[SeenPart]) -> bool
    ensures { result ≡ is_least part.now others.now }
{
    match part {
        SeenPart::One { key, value: _ } => are_behind(*key, others),
        SeenPart::Run(_) => false,
    }
}

// Whether each part is one key, and behind those before.
fn is_rising(parts: &[SeenPart]) -> bool
    ensures { result ≡ is_rising parts.now }
{
    let mut rest = parts;
    while let [first, others @ ..] = rest {
        if !is_least(first, others) {
            return false;
        }
        rest = others;
    }
    true
}

// Whether the keys of what was seen rise, each alone.
fn rises(seen: &Seen) -> bool
    ensures { IsTrue result → Rises (pairs_of seen.now) }
{
    is_rising(seen.parts.as_slice())
}

// Whether a part has this key.
fn is_at(part: &SeenPart, key: Key) -> bool {
    match part {
        SeenPart::One {
            key: other,
            value: _,
        } => other.is_same(key),
        SeenPart::Run(_) => false,
    }
}

// Whether a part's key lies in an interval.
fn is_within(part: &SeenPart, interval: Interval) -> bool {
    match part {
        SeenPart::One { key, value: _ } => !key.is_below(interval.from)
            && key.is_below(interval.to),
        SeenPart::Run(_) => false,
    }
}

/// What stands at a key is this from now on.
pub fn put(parts: &mut Vec<SeenPart>, key: Key, value: Value) -> Result<(), Memory> {
    parts.retain(|part| !is_at(part, key));
    let part = SeenPart::One { key, value };
    match parts.iter().position(|other| is_behind(key, other)) {
        Some(at) => parts.insert(at, part)?,
        None => parts.push(part)?,
    }
    Ok(())
}

// The key of a byte, so many behind a first one.
fn byte_key(from: Key, offset: u64) -> Key {
    let [el0, el1, el2, el3] = from.el;
    Key {
        el: [el0, el1, el2, el3.wrapping_add(offset)],
    }
}

// Each key of an interval gets this byte.
fn fill(parts: &mut Vec<SeenPart>, from: Key, to: Key, byte: u8) -> Result<(), Memory> {
    for offset in 0..to.el[3].wrapping_sub(from.el[3]) {
        put(parts, byte_key(from, offset), Value::Byte(byte))?;
    }
    Ok(())
}

// The keys of a run get its bytes.
fn put_run(parts: &mut Vec<SeenPart>, run: &ByteRun) -> Result<(), Memory> {
    for (offset, &byte) in run.bytes.as_slice().iter().enumerate() {
        put(parts, byte_key(run.from, offset as u64), Value::Byte(byte))?;
    }
    Ok(())
}

// The intervals go.
fn cut_all(parts: &mut Vec<SeenPart>, cuts: &[Interval]) {
    for &cut in cuts {
        parts.retain(|part| !is_within(part, cut));
    }
}

// The intervals get zeros.
fn zero_all(parts: &mut Vec<SeenPart>, zeros: &[Interval]) -> Result<(), Memory> {
    for zero in zeros {
        fill(parts, zero.from, zero.to, 0)?;
    }
    Ok(())
}

// The intervals get their bytes.
fn fill_all(parts: &mut Vec<SeenPart>, fills: &[FilledInterval]) -> Result<(), Memory> {
    for filled in fills {
        fill(parts, filled.from, filled.to, filled.byte)?;
    }
    Ok(())
}

// The runs come.
fn run_all(parts: &mut Vec<SeenPart>, runs: &[ByteRun]) -> Result<(), Memory> {
    for run in runs {
        put_run(parts, run)?;
    }
    Ok(())
}

// The values come.
fn put_all(parts: &mut Vec<SeenPart>, puts: Vec<(Key, Value)>) -> Result<(), Memory> {
    for (key, value) in puts {
        put(parts, key, value)?;
    }
    Ok(())
}

// The command with this number for an object that it makes. Each command is copied.
fn numbered(alloc: Global, command: &Command, oid: Oid) -> Result<Command, Memory> {
    Ok(match command.copy(alloc)? {
        Command::Create { path, .. } => Command::Create { path, oid },
        Command::Mkdir { path, .. } => Command::Mkdir { path, oid },
        other => other,
    })
}

// What an answer's intervals and runs make.
fn set_all(parts: &mut Vec<SeenPart>, edits: &Edits) -> Result<(), Memory> {
    cut_all(parts, edits.cuts.as_slice());
    zero_all(parts, edits.zeros.as_slice())?;
    fill_all(parts, edits.fills.as_slice())?;
    run_all(parts, edits.runs.as_slice())
}

// The values of an answer come, and its reply is given.
fn finish(parts: &mut Vec<SeenPart>, edits: Edits) -> Result<Reply, Memory> {
    let Edits { puts, reply, .. } = edits;
    put_all(parts, puts)?;
    Ok(reply)
}

// Is a command the job's with this number, and with no other one where it makes an object?
fn is_numbered(command: &Command, job: &Command, oid: Oid) -> bool {
    command.is_job(job, oid) && command.is_job(job, Oid(1)) != command.makes_object()
}

// What the job's command changes where it is this one, and its reply.
fn planned_as(
    alloc: Global,
    seen: &Seen,
    job: &Command,
    command: &Command,
    oid: Oid,
) -> Result<Edits, Fail>
    requires { Rises (pairs_of seen.now) }
{
    if !is_numbered(command, job, oid) {
        return Err(Fail::from("the command is not the job's"));
    }
    Ok(plan(alloc, command, seen)?)
}

// What a command changes, and its reply. An object that it makes gets this number.
fn planned(alloc: Global, seen: &Seen, job: &Command, oid: Oid) -> Result<Edits, Fail> {
    if !rises(seen) {
        return Err(Fail::from("the keys do not rise"));
    }
    let command = numbered(alloc, job, oid)?;
    planned_as(alloc, seen, job, &command, oid)
}

/// Does a command on all that the content has. An object that it makes gets this number.
pub fn perform(alloc: Global, seen: &mut Seen, command: &Command, oid: Oid) -> Result<Reply, Fail> {
    let edits = planned(alloc, seen, command, oid)?;
    set_all(&mut seen.parts, &edits)?;
    Ok(finish(&mut seen.parts, edits)?)
}

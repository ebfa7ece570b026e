//! The summary of a trace.

ghost use Rattle.std.specs.Prelude.{◌≡◌, IfOk, All, sum_by};
ghost use Rattle.r4_base.specs.Volume.{is_stat_value, objects_in};
ghost use Rattle.r4_outside.specs.Sink.{Appends};
ghost use Rattle.r4_trace.specs.declared.entry.Entry.TheVariants.{Refused};
ghost use Rattle.r4_summary.specs.Kept.{IsOne, pairs_in};
ghost use Rattle.r4_summary.specs.Totals.{bytes_in, counted, file_size, made_by, refused_in};
ghost use Rattle.r4_summary.specs.Totals.{refused_one, refused_text, size_in, stats_in};
ghost use Rattle.r4_summary.specs.Totals.{summary_line, totals_text};

use crate::following::all_done;
use r4_base::{Memory, Value};
use r4_content::SeenPart;
use r4_lines::write_number;
use r4_outside::{Failed, Sink};
use r4_trace::{Entry, Trace};
use std::alloc::Global;

/// What a run made of the empty volume, and how much it refused.
#[derive(Clone, Copy, Debug, PartialEq, Eq)]
pub struct Summary {
    /// The number of objects, the root among them.
    pub objects: u64,
    /// The sizes of all files, in bytes; it stands still at 2^64 - 1.
    pub bytes: u64,
    /// The number of commands that were refused.
    pub refused: u64,
}

// Whether a part is the stat data of an object: how many objects it has.
fn objects_of(part: &SeenPart) -> u64
    ensures { result ≡ stats_in part.now }
{
    match part {
        SeenPart::One {
            key: _,
            value: Value::Attr(_),
        } => 1,
        _ => 0,
    }
}

// How many objects there are.
fn objects(parts: &[SeenPart]) -> u64
    ensures { result ≡ sum_by stats_in parts.now }
{
    let mut objects = 0;
    for part in parts {
        objects += objects_of(part);
    }
    objects
}

// The size of the file that a part is the stat data of.
fn size_of(part: &SeenPart) -> u64
    ensures { result ≡ size_in part.now }
{
    match part {
        SeenPart::One {
            key: _,
            value: Value::Attr(attr),
        } => { if attr.mode / 4096 == 4 { 0 } else { attr.size } }
        _ => 0,
    }
}

// The sizes of all files.
fn bytes(parts: &[SeenPart]) -> u64
    ensures { result ≡ counted (sum_by size_in parts.now) }
{
    let mut bytes: u64 = 0;
    for part in parts {
        bytes = bytes.saturating_add(size_of(part));
    }
    bytes
}

// Whether an entry is of a command that was refused.
fn refused_by(entry: &Entry) -> u64
    ensures { result ≡ refused_one entry.now }
{
    match *entry {
        Entry::Refused { .. } => 1,
        _ => 0,
    }
}

// How many commands were refused.
fn refused(trace: &Trace) -> u64
    ensures { result ≡ refused_in trace.now.entries }
{
    let mut refused = 0;
    for i in 0..trace.len() {
        refused += refused_by(trace.entry(i));
    }
    refused
}

/// The summary of a trace: the objects and the bytes of files of the content that its Done entries, in their order, make of
/// the empty volume, and how many commands were refused (docs/scripts.md, "The generated workload"). The bytes of files
/// are not held in memory. `Memory` where there was not enough.
pub fn summarize(alloc: Global, trace: &Trace) -> Result<Summary, Memory>
    ensures { IfOk result (λ s. s ≡ record {
      objects = objects_in (made_by trace.now.entries);
      bytes = counted (bytes_in (made_by trace.now.entries));
      refused = refused_in trace.now.entries;
    }) }
{
    let seen = all_done(alloc, trace)?;
    Ok(Summary {
        objects: objects(seen.parts.as_slice()),
        bytes: bytes(seen.parts.as_slice()),
        refused: refused(trace),
    })
}

/// Writes the line of a summary, of the workload of a seed.
pub fn write_summary<K: Sink>(out: &mut K, seed: u64, summary: &Summary) -> Result<(), Failed>
    ensures { Appends (summary_line seed summary.now.objects summary.now.bytes summary.now.refused)
        (K.state out.old) result (K.state out.new) }
{
    write_number(out, b"gen ", seed, b": objects ")?;
    write_totals(out, summary)
}

// Writes the numbers of a summary.
fn write_totals<K: Sink>(out: &mut K, summary: &Summary) -> Result<(), Failed>
    ensures { Appends (totals_text summary.now.objects summary.now.bytes summary.now.refused)
        (K.state out.old) result (K.state out.new) }
{
    write_number(out, b"", summary.objects, b" bytes ")?;
    write_refused(out, summary.bytes, summary.refused)
}

// Writes the last two of them.
fn write_refused<K: Sink>(out: &mut K, bytes: u64, refused: u64) -> Result<(), Failed>
    ensures { Appends (refused_text bytes refused) (K.state out.old) result (K.state out.new) }
{
    write_number(out, b"", bytes, b" refused ")?;
    write_number(out, b"", refused, b"\n")
}

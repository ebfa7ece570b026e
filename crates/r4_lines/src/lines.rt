//! The lines that are printed, written piece by piece, without memory (docs/program.md, "Lines and statuses").

ghost use Rattle.std.specs.Prelude.{◌≡◌, ◌++◌, codes, decimal};
ghost use Rattle.r4_outside.specs.Sink.{Appends};
ghost use Rattle.r4_lines.specs.Lines.{device_line, image_line, made_line, memory_line};
ghost use Rattle.r4_lines.specs.Lines.{replayed_line, script_line, size_line, source_line, usage_line};

use itoa::Buffer;
use r4_base::BlockNo;
use r4_outside::{Failed, Sink};

/// Writes how the words are to be.
pub fn write_usage<K: Sink>(out: &mut K) -> Result<(), Failed>
    ensures { Appends usage_line (K.state out.old) result (K.state out.new) }
{
    out.write(b"usage: r4_tool replay, mkfs, run, list or check, then IMAGE and options\n")
}

/// Writes how far a device came that failed.
pub fn write_device<K: Sink>(out: &mut K, clock: u64, faults: u64) -> Result<(), Failed>
    ensures { Appends (device_line clock faults) (K.state out.old) result (K.state out.new) }
{
    write_number(out, b"device: clock ", clock, b" faults ")?;
    write_number(out, b"", faults, b"\n")
}

/// Writes the number of blocks of a device that is too small or too large.
pub fn write_size<K: Sink>(out: &mut K, blocks: u64) -> Result<(), Failed>
    ensures { Appends (size_line blocks) (K.state out.old) result (K.state out.new) }
{
    write_number(out, b"size: ", blocks, b" blocks\n")
}

/// Writes which block of an image is refused, and what is wrong with it.
pub fn write_image<K: Sink>(out: &mut K, block: BlockNo, what: &str) -> Result<(), Failed>
    ensures { Appends (image_line block.0 what.now) (K.state out.old) result (K.state out.new) }
{
    write_number(out, b"image: block ", block.0, b": ")?;
    write_what(out, what)
}

/// Writes how often the source of a script failed.
pub fn write_source<K: Sink>(out: &mut K, faults: u64) -> Result<(), Failed>
    ensures { Appends (source_line faults) (K.state out.old) result (K.state out.new) }
{
    write_number(out, b"source: faults ", faults, b"\n")
}

/// Writes where a script is faulty, by line and column, which count from 1, and what is wrong there.
pub fn write_script<K: Sink>(out: &mut K, line: u32, column: u32, what: &str) -> Result<(), Failed>
    ensures { Appends (script_line line column what.now) (K.state out.old) result (K.state out.new) }
{
    write_number(out, b"script: line ", u64::from(line), b" column ")?;
    write_number(out, b"", u64::from(column), b": ")?;
    write_what(out, what)
}

/// Writes that no memory was found.
pub fn write_memory<K: Sink>(out: &mut K) -> Result<(), Failed>
    ensures { Appends memory_line (K.state out.old) result (K.state out.new) }
{
    out.write(b"memory\n")
}

/// Writes how many transactions were put in place.
pub fn write_replayed<K: Sink>(out: &mut K, count: u64) -> Result<(), Failed>
    ensures { Appends (replayed_line count) (K.state out.old) result (K.state out.new) }
{
    write_number(out, b"replayed ", count, b"\n")
}

/// Writes how many blocks a volume has that was made, and how many of them are free.
pub fn write_made<K: Sink>(out: &mut K, blocks: u64, free: u64) -> Result<(), Failed>
    ensures { Appends (made_line blocks free) (K.state out.old) result (K.state out.new) }
{
    write_number(out, b"made ", blocks, b" blocks ")?;
    write_number(out, b"", free, b" free\n")
}

// Writes what is wrong, at the end of a line.
fn write_what<K: Sink>(out: &mut K, what: &str) -> Result<(), Failed>
    ensures { Appends (what.now ++ codes "\n") (K.state out.old) result (K.state out.new) }
{
    out.write(what.as_bytes())?;
    out.write(b"\n")
}

/// Writes a number between two texts.
pub fn write_number<K: Sink>(
    out: &mut K,
    before: &[u8],
    number: u64,
    after: &[u8],
) -> Result<(), Failed>
    ensures { Appends (before.now ++ decimal number ++ after.now) (K.state out.old) result (K.state out.new) }
{
    let mut digits = Buffer::new();
    out.write(before)?;
    out.write(digits.format(number).as_bytes())?;
    out.write(after)
}

//! What a volume has, as it is listed.

ghost use Rattle.std.specs.Prelude.{◌≤◌, length};

use crate::volumes::Volume;
use r4_list::list;
use r4_outside::MemorySink;
use std::alloc::{AllocError, Global};
use std::test::Fail;

/// The lines of a volume's listing (docs/program.md, "Listing"), and behind that of a file its
/// bytes, as in `a*4096 .*9`: runs of equal ones, where one that is no letter or digit is a dot.
///
/// # Errors
/// Where there is no memory, or the volume is not listed.
pub fn listing(alloc: Global, volume: &mut Volume) -> Result<Vec<String>, Fail> {
    let text = printed(alloc, volume, b"/")?;
    let mut lines = Vec::new(alloc);
    for line in text.as_slice().split(|byte| *byte == b'\n') {
        if !line.is_empty() {
            lines.push(whole_line(alloc, volume, line)?)?;
        }
    }
    Ok(lines)
}

// What is printed of a path.
fn printed(alloc: Global, volume: &mut Volume, path: &[u8]) -> Result<Vec<u8>, Fail>
    requires { 1 ≤ length path.now }
{
    let mut out = MemorySink::new(alloc, 100)?;
    print(alloc, volume, path, &mut out)?;
    Ok(out.written().to_vec(alloc)?)
}

// Prints a path.
fn print(alloc: Global, volume: &mut Volume, path: &[u8], out: &mut MemorySink) -> Result<(), Fail>
    requires { 1 ≤ length path.now }
{
    match list(alloc, &mut volume.dev, path, out) {
        Ok(_) => Ok(()),
        Err(_) => Err(Fail::from("the volume is not listed")),
    }
}

// A line, and for a file its bytes.
fn whole_line(alloc: Global, volume: &mut Volume, line: &[u8]) -> Result<String, Fail> {
    let mut told = String::from_utf8_lossy(alloc, line)?;
    let path = behind_last(line, b' ');
    if line.first() == Some(&b'f') && !path.is_empty() {
        let text = printed(alloc, volume, path)?;
        put_runs(alloc, &mut told, body_of(text.as_slice(), line.len()))?;
    }
    Ok(told)
}

// What stands behind the last one of these bytes.
fn behind_last(bytes: &[u8], mark: u8) -> &[u8] {
    let mut last = bytes;
    for part in bytes.split(|byte| *byte == mark) {
        last = part;
    }
    last
}

// The bytes of a file, which stand behind its line and before a newline.
fn body_of(text: &[u8], line: usize) -> &[u8] {
    let from = line.saturating_add(1);
    text.get(from..text.len().saturating_sub(1)).unwrap_or(b"")
}

// Adds runs of equal bytes.
fn put_runs(alloc: Global, told: &mut String, bytes: &[u8]) -> Result<(), AllocError> {
    let mut run = None;
    for byte in bytes {
        run = match run {
            Some((same, count)) if same == *byte => Some((same, u64::saturating_add(count, 1))),
            other => {
                put_run(alloc, told, other)?;
                Some((*byte, 1))
            }
        };
    }
    put_run(alloc, told, run)
}

// Adds a run, where there is one: its byte, and how many there are.
fn put_run(alloc: Global, told: &mut String, run: Option<(u8, u64)>) -> Result<(), AllocError> {
    let Some((byte, count)) = run else {
        return Ok(());
    };
    let shown = if byte.is_ascii_alphanumeric() {
        char::from(byte)
    } else {
        '.'
    };
    told.push_str(format!(in alloc; " {shown}*{count}")?.as_str())
}

/// The lines that are not among the others, each behind a `-`, and then the others that are not
/// among these, each behind a `+`.
///
/// # Errors
/// Where there is no memory.
pub fn differences(
    alloc: Global,
    before: &[String],
    after: &[String],
) -> Result<Vec<String>, AllocError> {
    let mut lines = Vec::new(alloc);
    put_missing(alloc, &mut lines, "-", before, after)?;
    put_missing(alloc, &mut lines, "+", after, before)?;
    Ok(lines)
}

// Adds the lines that are not among others, behind a sign.
fn put_missing(
    alloc: Global,
    out: &mut Vec<String>,
    sign: &str,
    lines: &[String],
    others: &[String],
) -> Result<(), AllocError> {
    for line in lines {
        if !has_line(others, line.as_str()) {
            out.push(format!(in alloc; "{sign} {line}")?)?;
        }
    }
    Ok(())
}

// Whether a line is among these.
fn has_line(lines: &[String], line: &str) -> bool {
    lines.iter().any(|other| other.as_str() == line)
}

//! Lines that are printed.

use crate::same::same;
use r4_lines::{write_script, write_source, write_usage};
use r4_outside::{Failed, MemorySink};
use std::test::Fail;

#[test]
fn lines_are_printed(rt: HostRuntime) -> Result<(), Fail> {
    let mut out = MemorySink::new(rt.alloc(), 200)?;
    write_usage(&mut out)?;
    write_source(&mut out, u64::MAX)?;
    write_script(&mut out, 65_536, 1, "extra field")?;
    let wanted = b"usage: r4_tool replay, mkfs, run, list or check, then IMAGE and options\n\
source: faults 18446744073709551615\nscript: line 65536 column 1: extra field\n";
    same(&rt, &out.written(), &wanted.as_slice(), "lines");
    Ok(())
}

// A sink that fails at each of the writes of a line: the line ends there.
#[test]
fn a_closed_sink_ends_a_line(rt: HostRuntime) -> Result<(), Fail> {
    let parts = ["", "script: line ", "3", " column ", "", "4", ": ", "name"];
    let mut text = String::new(rt.alloc());
    for (written, part) in parts.iter().enumerate() {
        text.push_str(part)?;
        let mut out = MemorySink::new(rt.alloc(), 200)?;
        out.fail(rt.alloc(), written as u64 + 1)?;
        let answer = write_script(&mut out, 3, 4, "name");
        same(&rt, &answer, &Err(Failed), part);
        same(&rt, &out.written(), &text.as_bytes(), part);
    }
    Ok(())
}

//! The program's call, and the line that it prints.

ghost use Rattle.r4_outside.specs.Device.{Goes};

use crate::same::same;
use r4_outside::{Device, MemorySink};
use r4_testing::{REPLAY, call};
use std::alloc::Global;
use std::process::Abort;
use std::test::Fail;

/// Calls the program with these words, and looks at the status and at the line that is printed.
pub fn prints<D: Device, X: Abort>(
    rt: &X,
    alloc: Global,
    words: &[&str],
    dev: &mut D,
    status: u8,
    line: &str,
) -> Result<(), Fail>
    ensures { Goes (D.state dev.old) (D.state dev.new) }
{
    let mut out = MemorySink::new(alloc, 100)?;
    let code = call(alloc, words, dev, &mut out)?;
    same(rt, &out.written(), &line.as_bytes(), line);
    same(rt, &code, &status, line);
    Ok(())
}

/// Replays a device, and looks at the status and at the line that is printed.
pub fn replays<D: Device, X: Abort>(
    rt: &X,
    alloc: Global,
    dev: &mut D,
    status: u8,
    line: &str,
) -> Result<(), Fail>
    ensures { Goes (D.state dev.old) (D.state dev.new) }
{
    prints(rt, alloc, &REPLAY, dev, status, line)
}

//! A replay through the program's call.

ghost use Rattle.r4_outside.specs.Device.{Goes};

use r4_outside::{Device, MemorySink};
use r4_testing::{REPLAY, call};
use std::alloc::Global;
use std::test::Fail;

/// Replays a device, and fails unless these are the status and the line that is printed.
pub fn replays<D: Device>(alloc: Global, dev: &mut D, status: u8, line: &str) -> Result<(), Fail>
    ensures { Goes (D.state dev.old) (D.state dev.new) }
{
    let mut out = MemorySink::new(alloc, 100)?;
    let code = call(alloc, &REPLAY, dev, &mut out)?;
    if out.written() != line.as_bytes() {
        return Err(Fail::from("another line is printed"));
    }
    if code != status {
        return Err(Fail::from("another status is answered"));
    }
    Ok(())
}

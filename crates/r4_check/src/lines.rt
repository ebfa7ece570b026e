//! The line of a fault, written piece by piece, without memory (docs/check.md).

ghost use Rattle.r4_outside.specs.Sink.{Appends};
ghost use Rattle.r4_check_objects.specs.Faults.{fault_line};

use itoa::Buffer;
use r4_check_objects::Fault;
use r4_outside::{Failed, Sink};

/// Writes the line of a fault.
pub fn write_fault<K: Sink>(out: &mut K, fault: Fault) -> Result<(), Failed>
    ensures { Appends (fault_line fault) (K.state out.old) result (K.state out.new) }
{
    let mut digits = Buffer::new();
    out.write(b"fault block ")?;
    out.write(digits.format(fault.block.0).as_bytes())?;
    out.write(b": ")?;
    out.write(fault.what.word().as_bytes())?;
    out.write(b"\n")
}

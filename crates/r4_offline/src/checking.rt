//! The command `check` (docs/program.md).

ghost use Rattle.r4_outside.specs.Device.{Goes, IsQuiet};
ghost use Rattle.r4_outside.specs.Sink.{Appends};
ghost use Rattle.r4_replay.specs.Replay.{SettlesAlways};
ghost use Rattle.r4_offline.specs.Checks.{ChecksImage, TellsVerdict, count_line};

use crate::listing::tell_fault;
use crate::status::Status;
use r4_check_laws::{Verdict, check};
use r4_lines::write_number;
use r4_outside::{Device, Failed, Sink};
use std::alloc::Global;

/// Prints the faults of the image and of its objects, and then how many objects and faults there are. Where there is a
/// fault the code is 1.
pub fn check_image<D: Device, K: Sink>(alloc: Global, dev: &mut D, out: &mut K) -> Status
    ensures goes { Goes (D.state dev.old) (D.state dev.new) }
    ensures checks { ChecksImage (D.state dev.old) (K.state out.old) result.code (D.state dev.new) (K.state out.new) }
    ensures any_moment { IsQuiet (D.state dev.old) → SettlesAlways (D.state dev.old) (D.state dev.new) }
{
    match check(alloc, dev, out) {
        Ok(verdict) => tell_verdict(out, verdict),
        Err(fault) => tell_fault(out, fault),
    }
}

// Prints the two numbers of a verdict.
fn tell_verdict<K: Sink>(out: &mut K, verdict: Verdict) -> Status
    ensures { TellsVerdict verdict result.code (K.state out.old) (K.state out.new) }
{
    match write_counts(out, verdict.objects, verdict.faults) {
        Ok(()) => Status {
            code: if verdict.faults == 0 { 0 } else { 1 },
        },
        Err(_) => Status { code: 5 },
    }
}

// Writes how many objects were read, and how many faults were found.
fn write_counts<K: Sink>(out: &mut K, objects: u64, faults: u64) -> Result<(), Failed>
    ensures { Appends (count_line objects faults) (K.state out.old) result (K.state out.new) }
{
    write_number(out, b"objects ", objects, b" faults ")?;
    write_number(out, b"", faults, b"\n")
}

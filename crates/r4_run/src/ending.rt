//! How a run ended, and what is printed of that.

ghost use Rattle.std.specs.Prelude.{◌≡◌, IsTrue};
ghost use Rattle.r4_lines.specs.Lines.{memory_line};
ghost use Rattle.r4_lines.specs.Printed.{Prints};
ghost use Rattle.r4_outside.specs.Device.{Rose};
ghost use Rattle.r4_run.specs.Ending.{StandsSo, TellsEnd, TellsServed, TellsWhy};

use r4_lines::{write_device, write_image, write_memory, write_size};
use r4_outside::{Device, Run, Sink};
use r4_print::PrintFault;
use r4_shared::{Core, OpenWhy, is_over};

/// How far a run came.
#[derive(Clone, Copy, Debug, PartialEq, Eq)]
pub(crate) enum Standing {
    /// It is whole.
    Whole,
    /// A call of the device failed.
    Broken,
    /// There was no memory to go on.
    Unfinished,
}

/// How a run ended, before its last line.
#[derive(Clone, Copy, Debug, PartialEq, Eq)]
pub(crate) enum End {
    /// The volume was not opened.
    Unopened(OpenWhy),
    /// The run came so far, and so much of its trace is printed.
    Opened {
        standing: Standing,
        printed: Result<(), PrintFault>,
    },
}

// How far the run of a core came.
pub(crate) fn standing_of<D: Device, R: Run>(core: &Core<D, R>) -> Standing
    ensures { StandsSo core.now result }
{
    if core.broken().is_some() {
        Standing::Broken
    } else if is_over(core) {
        Standing::Whole
    } else {
        Standing::Unfinished
    }
}

// The status of a run, and its last line where it has one. A sink that fails at the line does not
// change the status.
pub(crate) fn tell_end<D: Device, K: Sink>(out: &mut K, dev: &D, before: u64, end: End) -> u8
    ensures { TellsEnd before (D.state dev.now) end result (K.state out.old) (K.state out.new) }
{
    match end {
        End::Unopened(why) => tell_why(out, why),
        End::Opened { standing, printed } => tell_served(out, dev, before, standing, printed),
    }
}

// Of a run whose trace is printed: the line of the device where a call failed, unless the sink failed
// before, and that of memory.
fn tell_served<D: Device, K: Sink>(
    out: &mut K,
    dev: &D,
    before: u64,
    standing: Standing,
    printed: Result<(), PrintFault>,
) -> u8
    ensures { TellsServed before (D.state dev.now) standing printed result
        (K.state out.old) (K.state out.new) }
{
    match (standing, printed) {
        (Standing::Whole, Ok(())) => 0,
        (Standing::Whole, Err(PrintFault::Sink)) => 5,
        (Standing::Broken, Ok(())) if has_risen(before, dev.faults()) => {
            let _ = write_device(out, dev.clock(), dev.faults());
            6
        }
        (Standing::Broken, Err(PrintFault::Sink)) if has_risen(before, dev.faults()) => 6,
        _ => tell_memory(out),
    }
}

// Says that there was no memory. A sink that fails here does not change the status.
pub(crate) fn tell_memory<K: Sink>(out: &mut K) -> u8
    ensures code { result ≡ 9 }
    ensures line { Prints memory_line (K.state out.old) (K.state out.new) }
{
    let _ = write_memory(out);
    9
}

// Says why the volume was not opened.
fn tell_why<K: Sink>(out: &mut K, why: OpenWhy) -> u8
    ensures { TellsWhy why result (K.state out.old) (K.state out.new) }
{
    match why {
        OpenWhy::Log { block, fault } => {
            let _ = write_image(out, block, fault.word());
            7
        }
        OpenWhy::Image { block, fault } => {
            let _ = write_image(out, block, fault.word());
            7
        }
        OpenWhy::Device { clock, faults } => {
            let _ = write_device(out, clock, faults);
            6
        }
        OpenWhy::Size { blocks } => {
            let _ = write_size(out, blocks);
            8
        }
        OpenWhy::Memory => tell_memory(out),
    }
}

// Whether a count is higher than before, or stands at its end.
fn has_risen(before: u64, now: u64) -> bool
    ensures { IsTrue result → Rose before now }
{
    before < now || now == u64::MAX
}

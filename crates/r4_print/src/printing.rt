//! The lines of a trace, written to a sink.

ghost use Rattle.r4_print.specs.Printing.{Prints};
ghost use Rattle.r4_trace.specs.Text.{entry_text, trace_text};

use r4_base::Memory;
use r4_outside::{Failed, Sink};
use r4_trace::{Entry, Trace, line};
use std::alloc::Global;

/// Why the text of a trace was not written to its end.
#[derive(Clone, Copy, Debug, PartialEq, Eq)]
pub enum PrintFault {
    /// The sink failed.
    Sink,
    /// No memory was found for a line.
    Memory,
}

impl From<Memory> for PrintFault {
    ghost use Rattle.std.specs.Prelude.{◌≡◌};
    ghost use Rattle.r4_print.specs.declared.printing.PrintFault.TheVariants.{Memory as NoMemory};

    ghost from_gives = { λ _ e. e ≡ NoMemory };

    fn from(_none: Memory) -> PrintFault {
        PrintFault::Memory
    }
}

impl From<Failed> for PrintFault {
    ghost use Rattle.std.specs.Prelude.{◌≡◌};
    ghost use Rattle.r4_print.specs.declared.printing.PrintFault.TheVariants.{Sink as SinkFailed};

    ghost from_gives = { λ _ e. e ≡ SinkFailed };

    fn from(_failed: Failed) -> PrintFault {
        PrintFault::Sink
    }
}

/// Writes the text of a trace, its oldest entry first, a line at a time. It holds one line in
/// memory. Where it stops, a beginning of the text was written; `Sink` comes only where the sink's
/// count of failed calls rose (docs/scripts.md, "The trace").
pub fn print_trace<K: Sink>(alloc: Global, out: &mut K, trace: &Trace) -> Result<(), PrintFault>
    ensures { Prints (trace_text trace.now.entries) (K.state out.old) result (K.state out.new) }
{
    let mut text = Vec::new(alloc);
    for i in 0..trace.len() {
        print_line(alloc, out, trace.entry(i), &mut text)?;
    }
    Ok(())
}

// Writes the line of an entry, by way of a buffer.
fn print_line<K: Sink>(
    alloc: Global,
    out: &mut K,
    entry: &Entry,
    text: &mut Vec<u8>,
) -> Result<(), PrintFault>
    ensures { Prints (entry_text entry.now) (K.state out.old) result (K.state out.new) }
{
    text.clear();
    line(alloc, entry, text)?;
    out.write(text.as_slice())?;
    Ok(())
}

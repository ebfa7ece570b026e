//! What is shown of a run's trace.

ghost use Rattle.r4_print.specs.Printing.{Prints};
ghost use Rattle.r4_run.specs.Showing.{text_shown};

use r4_outside::Sink;
use r4_print::{PrintFault, print_trace};
use r4_summary::print_summary;
use r4_trace::Trace;
use std::alloc::Global;

/// What is printed of a run's trace.
#[derive(Clone, Copy, Debug, PartialEq, Eq)]
pub enum Shown {
    /// Its text (docs/scripts.md, "The trace").
    Trace,
    /// Its summary, of the workload of this seed, in one line (docs/scripts.md, "The generated workload").
    Summary { seed: u64 },
}

// Prints what is shown of a trace.
pub(crate) fn print_shown<K: Sink>(
    alloc: Global,
    out: &mut K,
    shown: Shown,
    trace: &Trace,
) -> Result<(), PrintFault>
    ensures { Prints (text_shown shown trace.now.entries) (K.state out.old) result (K.state out.new) }
{
    match shown {
        Shown::Trace => print_trace(alloc, out, trace),
        Shown::Summary { seed } => print_summary(alloc, out, seed, trace),
    }
}

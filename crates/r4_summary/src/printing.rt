//! The summary of a trace, printed.

ghost use Rattle.r4_print.specs.Printing.{Prints};
ghost use Rattle.r4_summary.specs.Totals.{summary_text};

use crate::totals::{summarize, write_summary};
use r4_outside::Sink;
use r4_print::PrintFault;
use r4_trace::Trace;
use std::alloc::Global;

/// Prints the summary of a trace, of the workload of a seed: one line (docs/scripts.md, "The generated workload").
/// Where it stops, a beginning of the line was written; `Sink` comes only where the sink's count of failed calls rose,
/// and `Memory` where there was not enough for the summary.
pub fn print_summary<K: Sink>(
    alloc: Global,
    out: &mut K,
    seed: u64,
    trace: &Trace,
) -> Result<(), PrintFault>
    ensures { Prints (summary_text seed trace.now.entries) (K.state out.old) result (K.state out.new) }
{
    let summary = summarize(alloc, trace)?;
    write_summary(out, seed, &summary)?;
    Ok(())
}

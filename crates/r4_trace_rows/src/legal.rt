//! Traces that are legal.

ghost use Rattle.std.specs.Prelude.{reverse};
ghost use Rattle.r4_trace.specs.Legal.{IsWhole};
ghost use Rattle.r4_trace_rows.specs.Examples.{IsLegalFor, apart, apart_job, captured, captured_job, failing, failing_job, failing_work, failing_work_job, fresh, inside, inside_job, usual, usual_job, waiting, waiting_job, with_files};

/// Traces that are legal for their starts and jobs: two scripts that need nothing of each other;
/// two of which one waits for the other; work that goes on while an atom is committed; a sync that
/// fails, also while other commands are at work; single commands of one script; a script that ends
/// inside of a transaction.
pub fn legal_examples()
    ensures apart { IsLegalFor with_files apart_job apart }
    ensures waiting { IsLegalFor fresh waiting_job waiting }
    ensures captured { IsLegalFor fresh captured_job captured }
    ensures failing { IsLegalFor fresh failing_job failing }
    ensures failing_work { IsLegalFor fresh failing_work_job failing_work }
    ensures usual { IsLegalFor fresh usual_job usual }
    ensures inside { IsLegalFor fresh inside_job inside }
{}

/// Those of them that no failure ends are whole.
pub fn whole_examples()
    ensures apart { IsWhole apart_job (reverse apart) }
    ensures waiting { IsWhole waiting_job (reverse waiting) }
    ensures captured { IsWhole captured_job (reverse captured) }
    ensures usual { IsWhole usual_job (reverse usual) }
    ensures inside { IsWhole inside_job (reverse inside) }
{}

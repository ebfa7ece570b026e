//! The top call.

ghost use Rattle.std.specs.Prelude.{◌≡◌, ◌⊎◌, IfSome, None, Some, map, string_bytes};
ghost use Rattle.r4_outside.specs.Device.{Goes, IsQuiet};
ghost use Rattle.r4_lines.specs.Lines.{usage_line};
ghost use Rattle.r4_lines.specs.Printed.{Prints};
ghost use Rattle.r4_words.specs.Options.{RunAsked, asked_run};
ghost use Rattle.r4_words.specs.Words.{AsksRun, asked_of};
ghost use Rattle.r4_run.specs.Naming.{Begins};
ghost use Rattle.r4_top.specs.Answers.{Answers, HasMoments, IsFree, IsRun, LeavesSource, RunsAsked};

use r4_lines::write_usage;
use r4_offline::{Status, obey};
use r4_outside::{Device, Gate, Run, Sink, Source};
use r4_run::{run_generated, run_scripts};
use r4_words::{Command, RunWords, read_words};
use std::alloc::Global;
use std::sync::Wait;
use std::thread::Threads;

/// Does what the words say, on a device, and prints a listing, the trace of a run, or one line. The words leave out the
/// program's own name. The source has the text of the scripts, and is read by `run` alone, where no workload is asked
/// for; the threads and the gate are used by `run` alone (docs/program.md).
///
/// What `run` says of its beginning, for which `R` may name the image and the clock, it says where they are named as
/// they are (`Begins`). A run of which nothing is named is legal for its scripts all the same, and whole at status 0.
pub fn r4_main<D: Device, S: Source, K: Sink, G: Gate, R: Run, X: Threads + Wait + Sync>(
    rt: &X,
    alloc: Global,
    words: &[String],
    dev: &mut D,
    script: &mut S,
    out: &mut K,
    gate: &G,
    run: R,
) -> Status
    requires begins { IsRun (asked_of (map string_bytes words.now)) → Begins R.start R.clock (D.state dev.old) }
    ensures goes { Goes (D.state dev.old) (D.state dev.new) }
    ensures script { LeavesSource (asked_of (map string_bytes words.now))
        (S.state script.old) (S.state script.new) }
    ensures answers { Answers (asked_of (map string_bytes words.now)) (D.state dev.old) (K.state out.old)
        result.code (D.state dev.new) (K.state out.new) }

    // One trace tells what a run did, what it printed, and what a crash at any moment leaves of this device, also where
    // the run was asked to stop. With a seed it is a run of that seed's workload, and its summary is printed.
    ensures runs { (asked : RunAsked) → asked_of (map string_bytes words.now) ≡ Some (AsksRun asked)
        → RunsAsked asked R.start R.clock (S.state script.old) (S.state script.new)
        (D.state dev.old) (K.state out.old) result.code (D.state dev.new) (K.state out.new) }

    // Where nothing stands against it, a run comes to its end, or there is no memory.
    ensures complete { (asked : RunAsked) → asked_of (map string_bytes words.now) ≡ Some (AsksRun asked)
        → asked.stop ≡ None → IsFree asked.seed (S.state script.old) (S.state script.new)
        (D.state dev.old) (D.state dev.new) (K.state out.old) (K.state out.new)
        → (result.code ≡ 0) ⊎ (result.code ≡ 9) }

    // What a crash at any moment of another call leaves.
    ensures any_moment { IsQuiet (D.state dev.old)
        → HasMoments (asked_of (map string_bytes words.now)) (D.state dev.old) (D.state dev.new) }
{
    match read_words(words) {
        None => refuse_words(out),
        Some(Command::Offline(command)) => obey(alloc, command, dev, out),
        Some(Command::Run(words)) => Status {
            code: run_asked(rt, alloc, words, dev, script, out, gate, run),
        },
    }
}

// A run of the source's scripts, or of a generated workload.
fn run_asked<D: Device, S: Source, K: Sink, G: Gate, R: Run, X: Threads + Wait + Sync>(
    rt: &X,
    alloc: Global,
    words: RunWords,
    dev: &mut D,
    script: &mut S,
    out: &mut K,
    gate: &G,
    run: R,
) -> u8
    requires begins { Begins R.start R.clock (D.state dev.old) }
    ensures goes { Goes (D.state dev.old) (D.state dev.new) }
    ensures script { IfSome words.seed (λ seed. S.state script.new ≡ S.state script.old) }
    ensures runs { RunsAsked (asked_run words) R.start R.clock (S.state script.old) (S.state script.new)
        (D.state dev.old) (K.state out.old) result (D.state dev.new) (K.state out.new) }
    ensures complete { (asked_run words).stop ≡ None → IsFree (asked_run words).seed
        (S.state script.old) (S.state script.new) (D.state dev.old) (D.state dev.new)
        (K.state out.old) (K.state out.new) → (result ≡ 0) ⊎ (result ≡ 9) }
{
    let RunWords {
        threads,
        stop,
        seed,
    } = words;
    match seed {
        None => run_scripts(rt, alloc, threads, stop, dev, script, out, gate, run),
        Some(seed) => run_generated(rt, alloc, seed, threads, stop, dev, out, gate, run),
    }
}

// The words are faulty.
fn refuse_words<K: Sink>(out: &mut K) -> Status
    ensures code { result.code ≡ 2 }
    ensures line { Prints usage_line (K.state out.old) (K.state out.new) }
{
    let _ = write_usage(out);
    Status { code: 2 }
}

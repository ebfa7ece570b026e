//! What the threads left of a run is done by whoever has the core alone.

ghost use Rattle.std.specs.Prelude.{◌≡◌, ℕ, IsTrue, None};
ghost use Rattle.r4_atoms.specs.Atoms.{IsClosedAtom};
ghost use Rattle.r4_history.specs.Tables.{asked};
ghost use Rattle.r4_shared.specs.Finishing.{AllAnswered, IsAnswered};
ghost use Rattle.r4_apply.specs.r4_trace.Legal.{IsWhole};
ghost use Rattle.r4_turns.specs.Turns.{IsScript};

use crate::stepping::{Next, bring_back, next_step};
use r4_apply::{Core, Step, flush, recall};
use r4_base::{Memory, ScriptNo};
use r4_history::runs_are_whole;
use r4_made::make;
use r4_outside::{Device, Gate, Run};
use r4_turns::Turns;
use std::alloc::Global;
use std::sync::Wait;

/// Does what is left of a run: gives back what is out, ends the commit that is under way, serves the
/// scripts, and commits the atoms that are left, the smallest first. It stops early where there is no
/// memory, or where a call of the device fails (docs/core.md, "Threads").
pub fn finish<D: Device, R: Run, G: Gate, X: Wait>(
    rt: &X,
    alloc: Global,
    core: &mut Core<D, R>,
    gate: &G,
) {
    recall(core);
    end_commit(rt, core);
    if serve_rest(rt, alloc, core, gate).is_ok() {
        commit_rest(rt, alloc, core);
    }
}

// The commit that is under way goes on to its end.
fn end_commit<D: Device, R: Run, X: Wait>(rt: &X, core: &mut Core<D, R>) {
    for _ in rt.forever() {
        if matches!(core.commit_step(), Step::Idle | Step::Broken { .. }) {
            return;
        }
    }
}

// The scripts are served to their ends. None waits, since nothing is out.
fn serve_rest<D: Device, R: Run, G: Gate, X: Wait>(
    rt: &X,
    alloc: Global,
    core: &mut Core<D, R>,
    gate: &G,
) -> Result<(), Memory> {
    for _ in rt.forever() {
        match next_step(core, alloc)? {
            Next::Finished | Next::Wait(_) => return Ok(()),
            Next::Work(task) => bring_back(core, alloc, make(alloc, gate, task)),
            Next::Flushed(_) => end_commit(rt, core),
            Next::Replied(_) | Next::Unflushed(_) => (),
        }
    }
    unreachable!()
}

// The atoms that are left are committed.
fn commit_rest<D: Device, R: Run, X: Wait>(rt: &X, alloc: Global, core: &mut Core<D, R>) {
    for _ in rt.forever() {
        let Some(atom) = core.next_atom() else {
            return;
        };
        if core.broken().is_some() || core.atom_under_way().is_some() {
            return;
        }
        if flush(core, alloc, atom).is_err() {
            return;
        }
        end_commit(rt, core);
    }
}

/// Whether a run is whole: no call of the device failed, each command is answered, and each
/// transaction has ended and is in a committed atom. No memory.
pub fn is_over<D: Device, R: Run>(core: &Core<D, R>) -> bool
    ensures sound { IsTrue result → core.now.broken ≡ None }
    ensures rests { IsTrue result → core.now.commit ≡ None }
    ensures whole { IsTrue result
        → IsWhole (asked core.now.turns.job) core.now.trace.entries }
{
    core.lawful();
    runs_are_whole();
    is_at_rest(core) && are_answered(core.turns())
}

// Whether no call of the device failed, no commit is under way, and no atom is left to be sealed.
fn is_at_rest<D: Device, R: Run>(core: &Core<D, R>) -> bool
    ensures sound { IsTrue result → core.now.broken ≡ None }
    ensures rests { IsTrue result → core.now.commit ≡ None }
    ensures none { IsTrue result → (a : ℕ) → IsClosedAtom core.now.atoms a → ⊥ }
{
    core.broken().is_none() && core.atom_under_way().is_none() && core.next_atom().is_none()
}

// Whether each script is answered whole, and stands outside of transactions.
fn are_answered(turns: &Turns) -> bool
    ensures { IsTrue result → AllAnswered turns.now }
{
    for at in 0..turns.count() {
        if !is_answered(turns, ScriptNo(at + 1)) {
            return false;
        }
    }
    true
}

// Whether it is.
fn is_answered(turns: &Turns, script: ScriptNo) -> bool
    requires { IsScript turns.now script.0 }
    ensures { IsTrue result → IsAnswered turns.now script.0 }
{
    turns.is_answered_whole(script) && turns.open(script).is_none()
}

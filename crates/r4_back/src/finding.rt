//! Whether a task is the one of its script that is out.

ghost use Rattle.std.specs.Prelude.{◌≡◌, Err, MatchBool};
ghost use Rattle.r4_matching.specs.declared.matching.Mismatch.TheVariants.{Gone};
ghost use Rattle.r4_turns.specs.Turns.{IsScript};
ghost use Rattle.r4_back.specs.Backing.{IsGone, IsMatched, IsThere};
ghost use Rattle.r4_turns.specs.declared.out.Out.{Out as Given};

use r4_base::ScriptNo;
use r4_matching::{Mismatch, Task, match_task};
use r4_next::Core;
use r4_outside::{Device, Run};
use r4_turns::Turns;

/// How a task stands to that of its script that is out: it is this one, or has other cells, or is
/// another one, or none is out. No memory is taken (docs/core.md, "Matching").
pub fn matched<D: Device, R: Run>(core: &Core<D, R>, task: &Task) -> Result<(), Mismatch>
    ensures { IsMatched core.now task.now result }
{
    core.lawful();
    let turns = core.turns();
    let script = task.script;
    if !is_script(turns, script) {
        return Err(Mismatch::Gone);
    }
    let Some(out) = turns.out(script) else {
        return Err(Mismatch::Gone);
    };
    let Some(command) = turns.command(script) else {
        unreachable!();
    };
    match_task(out, script, turns.answered(script), command, task)
}

/// Whether a task is the one of its script that is out, whatever its cells are.
pub fn is_out<D: Device, R: Run>(core: &Core<D, R>, task: &Task) -> bool
    ensures { MatchBool result ((out : Given) × IsThere core.now task.now out)
        (IsGone core.now task.now) }
{
    !is_gone(matched(core, task))
}

// Whether there is a script of this number.
fn is_script(turns: &Turns, script: ScriptNo) -> bool
    ensures { MatchBool result (IsScript turns.now script.0) (IsScript turns.now script.0 → ⊥) }
{
    script.0 > 0 && script.0 <= turns.count()
}

/// Whether the answer is that the task is another one, or none is out.
pub fn is_gone(answer: Result<(), Mismatch>) -> bool
    ensures { MatchBool result (answer ≡ Err Gone) (answer ≡ Err Gone → ⊥) }
{
    matches!(answer, Err(Mismatch::Gone))
}

//! The scripts are looked at in their order.

ghost use Rattle.std.specs.Prelude.{◌≡◌, ◌<◌, ◌^◌, IfOk, OnErr, Some, length};
ghost use Rattle.r4_next.specs.Following.{taken_for};
ghost use Rattle.r4_next.specs.Order.{rank_of};
ghost use Rattle.r4_next.specs.Taking.{BuildsIfWork, Takes};
ghost use Rattle.r4_served.specs.Serving.{IsLeft};
ghost use Rattle.r4_turns.specs.Turns.{IsScript};

use crate::looking::look_at;
use crate::taken::{Looked, Taken};
use r4_base::{Memory, ScriptNo};
use r4_history::Why;
use r4_outside::{Device, Run};
use r4_served::Core;
use std::alloc::Global;

/// What is to be done next. The scripts are looked at in the order of fewest answered commands, then
/// smallest number, and the first one is served that is not finished, has no task out and does not
/// wait (docs/core.md, "Taking"). The only error is want of memory, or of numbers for new cells; then
/// the device may have been read, there may be more room, and all else is as it was.
pub fn take<D: Device, R: Run>(core: &mut Core<D, R>, alloc: Global) -> Result<Taken, Memory>
    requires few { length core.old.atoms.txns < 4294967295 }
    ensures ok { IfOk result (Takes D.state core.old core.new) }
    ensures builds { IfOk result BuildsIfWork }
    ensures err { OnErr result
        (IsLeft (D.state core.old.dev) (D.state core.new.dev) core.old core.new) }
{
    core.lawful();
    let mut last = None;
    let mut first = None;
    while let Some(script) = core.turns().next_behind(last) {
        is_ranked(core, script);
        match look_at(core, alloc, script)? {
            Looked::Finished => (),
            Looked::Waits(why) => first = first.or(Some(why)),
            Looked::Takes(taken) => return Ok(taken),
        }
        last = Some(script);
    }
    Ok(waiting_for(first))
}

// What there is to do where no script can be served.
fn waiting_for(first: Option<Why>) -> Taken
    ensures { result ≡ taken_for first }
{
    match first {
        None => Taken::Finished,
        Some(why) => Taken::Wait(why),
    }
}

// The rank of a script is a number of 64 bits, since so few commands are answered: so the scripts come
// to an end.
fn is_ranked<D: Device, R: Run>(core: &Core<D, R>, script: ScriptNo)
    requires { IsScript core.now.turns script.0 }
    ensures rank { rank_of core.now.turns (Some script) < 2 ^ 64 }
    ensures number { script.0 < 4294967296 }
{
    let _ = core.turns().answered(script);
}

//! How the next command of a script stands.

ghost use Rattle.std.specs.Prelude.{◌≡◌, length};
ghost use Rattle.r4_turns.specs.Turns.{IsScript, commands_at, pending_in, turn_at};

use r4_base::ScriptNo;
use r4_outside::{Device, Run};
use r4_served::Core;
use r4_turns::Pending;

/// How the next command of a script stands: each is answered, or it is out as this task, or it is
/// not out. No memory.
pub fn pending<D: Device, R: Run>(core: &Core<D, R>, script: ScriptNo) -> Pending
    requires { IsScript core.now.turns script.0 }
    ensures { result ≡ pending_in (turn_at core.now.turns script.0)
        (length (commands_at core.now.turns script.0)) }
{
    core.turns().pending(script)
}
